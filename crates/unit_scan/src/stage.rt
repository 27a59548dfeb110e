//! What a unit does next.
use scan_model::{Bytes, Form, Items, PathText, Tok, UnitEnd};

/// A file that every command has, or may have.
#[derive(Clone, Copy)]
pub(crate) enum FirstFile {
    Predefines,
    Main,
}

/// A condition whose tests are looked up: its tokens, the place of those that are left, and the answers so far.
#[derive(Drop)]
pub(crate) struct Testing {
    pub is_elif: bool,
    pub toks: Items<Tok>,
    pub next: usize,
    pub so_far: Vec<bool>,
}

/// What a name is looked for.
#[derive(Drop)]
pub(crate) enum Purpose {
    /// It is included, or forced.
    Included,
    /// A condition asks whether it is there.
    Tested(Testing),
}

/// A name that is looked for: its form, the folder that a quoted one is looked for in first, the number of the candidate that
/// is asked, from 0, and the line of its faults.
#[derive(Drop)]
pub(crate) struct Name {
    pub form: Form,
    pub from: PathText,
    pub text: Bytes,
    pub next: u32,
    pub line: u32,
}

#[derive(Drop)]
pub(crate) enum Lookup {
    First(FirstFile),
    Named(Name, Purpose),
}

#[derive(Drop)]
pub(crate) enum Stage {
    /// The predefines are looked for first.
    Begins,
    /// The next line is taken, a file ends, or what isn't begun begins.
    Runs,
    /// The next candidate is looked for.
    Seeks(Lookup),
    /// The next test of a condition is looked for.
    Tests(Testing),
    /// This path is waiting.
    Asks(Lookup, PathText),
    /// The last answer is for this search.
    Answered(Lookup),
    /// The record is the end.
    Recorded,
    Over(UnitEnd),
    /// Memory was wanting.
    Spent,
}

/// Where a fault of a search stands: at a first file itself, or at this line of the file that the unit is in.
#[derive(Clone, Copy)]
pub(crate) enum Blame {
    Alone,
    Here(u32),
}
