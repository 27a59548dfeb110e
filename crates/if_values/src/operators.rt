ghost use Rattle.std.specs.Prelude.{◌≡◌, ◌≤◌};
ghost use Rattle.std.specs.Option.{option_map};
ghost use Rattle.scan_model.specs.ConditionTree.{operator_of, unary_operators};
ghost use Rattle.scan_model.specs.Condition.{is_operator};
ghost use Rattle.if_values.specs.Operators.{binary_of, unary_of};
ghost use Rattle.if_values.specs.UnaryRows.{is_unary_operator};
ghost use Rattle.if_values.specs.Levels.{level_of, at_levels, only_at_its_level};

use scan_model::{Kind, Tok};

/// The binary operators of a condition ([cpp.cond], [expr]).
#[derive(Clone, Copy)]
pub(crate) enum Binary {
    OrElse,
    AndAlso,
    BitOr,
    BitXor,
    BitAnd,
    Equal,
    Unequal,
    Less,
    Greater,
    AtMost,
    AtLeast,
    ShiftLeft,
    ShiftRight,
    Plus,
    Minus,
    Times,
    Over,
    Modulo,
}

/// The unary operators of a condition ([expr.unary.op]).
#[derive(Clone, Copy)]
pub(crate) enum Unary {
    Not,
    Complement,
    Negative,
    Positive,
}

impl Binary {
    /// How many levels are looser than its own ([expr]): 0 for `||`, 9 for `*`, `/` and `%`.
    pub(crate) fn level(self) -> u32
        ensures value { result ≡ level_of (binary_of self) }
        ensures small { result ≤ 9 }
    {
        match self {
            Binary::OrElse => 0,
            Binary::AndAlso => 1,
            Binary::BitOr => 2,
            Binary::BitXor => 3,
            Binary::BitAnd => 4,
            Binary::Equal | Binary::Unequal => 5,
            Binary::Less | Binary::Greater | Binary::AtMost | Binary::AtLeast => 6,
            Binary::ShiftLeft | Binary::ShiftRight => 7,
            Binary::Plus | Binary::Minus => 8,
            Binary::Times | Binary::Over | Binary::Modulo => 9,
        }
    }
}

/// The unary operator that the token is, alternative words included ([lex.digraph]).
pub(crate) fn unary_operator(tok: &Tok) -> Option<Unary>
    ensures { option_map unary_of result ≡ operator_of unary_operators tok.now }
{
    if !matches!(tok.kind, Kind::Punct) {
        return None;
    }
    match tok.text.as_slice() {
        b"!" | b"not" => Some(Unary::Not),
        b"~" | b"compl" => Some(Unary::Complement),
        b"-" => Some(Unary::Negative),
        b"+" => Some(Unary::Positive),
        _ => None,
    }
}

/// The binary operator that the token is, alternative words included ([lex.digraph]).
pub(crate) fn binary_operator(tok: &Tok) -> Option<Binary>
    ensures { at_levels tok.now ≡ only_at_its_level (option_map binary_of result) }
{
    if !matches!(tok.kind, Kind::Punct) {
        return None;
    }
    match tok.text.as_slice() {
        b"||" | b"or" => Some(Binary::OrElse),
        b"&&" | b"and" => Some(Binary::AndAlso),
        b"|" | b"bitor" => Some(Binary::BitOr),
        b"^" | b"xor" => Some(Binary::BitXor),
        b"&" | b"bitand" => Some(Binary::BitAnd),
        b"==" => Some(Binary::Equal),
        b"!=" | b"not_eq" => Some(Binary::Unequal),
        b"<" => Some(Binary::Less),
        b">" => Some(Binary::Greater),
        b"<=" => Some(Binary::AtMost),
        b">=" => Some(Binary::AtLeast),
        b"<<" => Some(Binary::ShiftLeft),
        b">>" => Some(Binary::ShiftRight),
        b"+" => Some(Binary::Plus),
        b"-" => Some(Binary::Minus),
        b"*" => Some(Binary::Times),
        b"/" => Some(Binary::Over),
        b"%" => Some(Binary::Modulo),
        _ => None,
    }
}

pub(crate) fn is_unary(tok: &Tok) -> bool
    ensures { result ≡ is_unary_operator tok.now }
{
    unary_operator(tok).is_some()
}

/// Whether the token is an operator of a condition, but for `?` and `:`.
pub(crate) fn is_operator(tok: &Tok) -> bool
    ensures { result ≡ is_operator tok.now }
{
    binary_operator(tok).is_some() | is_unary(tok)
}
