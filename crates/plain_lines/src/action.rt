use scan_model::{Bytes, FaultKind, Form, Items, ModuleFault, Tok};

/// The condition of an `#if` or `#elif`, whose `__has_include`s are to be looked up ([cpp.cond]).
#[derive(Drop)]
pub struct Condition {
    /// Its tokens, with macros replaced.
    pub toks: Items<Tok>,
    /// Whether it is that of an `#elif`.
    pub is_elif: bool,
    /// How many `__has_include`s and `__has_include_next`s it has, one at least.
    pub tests: usize,
}

/// What a line does.
#[derive(Drop)]
pub enum Action {
    /// Nothing more: the state is as after the line.
    Goes,
    /// The same. The line began a group of a conditional, or went on to one, and the group is skipped.
    Skips,
    /// It is a module or import line, which the record's builder has taken.
    Sent,
    /// It is a module or import line that the builder refused for this; nothing changed.
    Refused(ModuleFault),
    /// It is a fault; nothing changed.
    Stops(FaultKind),
    /// It includes a header of this name, which is looked for in this form; nothing changed yet.
    Includes(Form, Bytes),
    /// Its condition asks for files; nothing changed yet.
    Tests(Condition),
}
