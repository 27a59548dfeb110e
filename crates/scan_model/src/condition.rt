use crate::Form;

/// The value of a condition, a number of 64 bits ([cpp.cond]).
#[derive(Clone, Copy, Debug, PartialEq, Eq)]
pub struct CondValue {
    /// The number, of a signed one its two's complement.
    pub bits: u64,
    pub unsigned: bool,
}

/// Why a condition has no value.
#[derive(Clone, Copy, Debug, PartialEq, Eq)]
pub enum CondFault {
    /// The tokens make no condition.
    BadCondition,
    /// `/` or `%` by 0, evaluated.
    DivisionByZero,
    /// A shift by a negative number, or by 64 or more, evaluated.
    BadShift,
    /// A literal that has no value.
    BadNumber,
    /// More than 256 parentheses open, unary operators in a row, or `?`.
    ConditionTooDeep,
}

/// Where the name of a `__has_include` or `__has_include_next` stands among the tokens ([cpp.cond]).
#[derive(Clone, Copy, Debug, PartialEq, Eq)]
pub struct HasAt {
    /// The place of the name's first token, from 0.
    pub first: usize,
    /// The place after the name's last token.
    pub past: usize,
    /// The form that is written: `Quoted` or `Angled`.
    pub form: Form,
    /// Whether it is a `__has_include_next`.
    pub next: bool,
}

/// The first `__has_include` or `__has_include_next` of tokens.
#[derive(Clone, Copy, Debug, PartialEq, Eq)]
pub enum HasNext {
    /// There is none.
    End,
    /// It stands at this place, and is followed by no header's name in parentheses.
    Bad(usize),
    At(HasAt),
}
