/// What the word after a line's `#` asks for ([cpp.pre]).
#[derive(Clone, Copy, Debug, PartialEq, Eq)]
pub enum Directive {
    If,
    Ifdef,
    Ifndef,
    Elif,
    /// `#elifdef`, of C++23 alone.
    Elifdef,
    /// `#elifndef`, of C++23 alone.
    Elifndef,
    Else,
    Endif,
    Define,
    Undef,
    Include,
    /// `#include_next`, which compilers add.
    IncludeNext,
    /// `#line`
    Renumber,
    Error,
    Pragma,
    /// No word, a number, `#warning` or `#ident`: it does nothing.
    Nothing,
    /// Any other word.
    Unknown,
}
