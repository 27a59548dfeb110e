use crate::{Bytes, Items, Tok};

/// Where a file's lines are presumed to stand ([cpp.line], [cpp.predefined]).
#[derive(Drop)]
pub struct Site {
    /// The spelling that `__FILE__` gives, quotes included.
    pub file: Bytes,
    /// What is added to a line's physical number for the number that `__LINE__` gives.
    pub shift: i64,
}

/// What tokens are replaced for.
#[derive(Clone, Copy, Debug, PartialEq, Eq)]
pub enum Mode {
    /// A directive other than a condition, or a module or import line.
    Line,
    /// A condition, in which `defined` is an operator ([cpp.cond]).
    Condition,
    /// Text between directives, in which `__COUNTER__` gives this number first.
    Text(u64),
}

/// What replacing tokens gives.
#[derive(Drop)]
pub enum Expanded {
    /// The tokens, and the number that `__COUNTER__` gives next in text; 0 in the other modes.
    Done(Items<Tok>, u64),
    /// A call that isn't closed or has a wrong number of arguments, or a join or a string that is no token.
    Bad,
    /// The replacements cost more than 1,048,576 tokens.
    TooLong,
    /// `__COUNTER__` would be replaced outside text.
    Counter,
}
