ghost use Rattle.std.specs.Prelude.{◌≡◌, [], ◌∷◌};
ghost use Rattle.scan_model.specs.TokenTests.{is_sign, is_word};
ghost use Rattle.scan_model.specs.HeaderName.{is_has, is_has_next};

use scan_model::{Kind, Tok};

/// A `!` or `~`, also as a word ([lex.digraph]).
pub(crate) fn is_bang_or_tilde(tok: &Tok) -> bool
    ensures { result ≡ is_sign ("!" ∷ "not" ∷ "~" ∷ "compl" ∷ []) tok.now }
{
    matches!(tok.kind, Kind::Punct)
        && matches!(tok.text.as_slice(), b"!" | b"not" | b"~" | b"compl")
}

pub(crate) fn is_plus_or_minus(tok: &Tok) -> bool
    ensures { result ≡ is_sign ("+" ∷ "-" ∷ []) tok.now }
{
    matches!(tok.kind, Kind::Punct) && matches!(tok.text.as_slice(), b"+" | b"-")
}

pub(crate) fn is_question(tok: &Tok) -> bool
    ensures { result ≡ is_sign ("?" ∷ []) tok.now }
{
    matches!(tok.kind, Kind::Punct) && tok.text.as_slice() == b"?".as_slice()
}

pub(crate) fn is_colon(tok: &Tok) -> bool
    ensures { result ≡ is_sign (":" ∷ []) tok.now }
{
    matches!(tok.kind, Kind::Punct) && tok.text.as_slice() == b":".as_slice()
}

pub(crate) fn is_double_colon(tok: &Tok) -> bool
    ensures { result ≡ is_sign ("::" ∷ []) tok.now }
{
    matches!(tok.kind, Kind::Punct) && tok.text.as_slice() == b"::".as_slice()
}

/// A `__has_include` or a `__has_include_next` ([cpp.cond]).
pub(crate) fn is_has(tok: &Tok) -> bool
    ensures { result ≡ is_has tok.now }
{
    tok.is_named(b"__has_include") || is_has_next(tok)
}

pub(crate) fn is_has_next(tok: &Tok) -> bool
    ensures { result ≡ is_has_next tok.now }
{
    tok.is_named(b"__has_include_next")
}

/// A `__has_cpp_attribute` ([cpp.cond]).
pub(crate) fn is_has_attribute(tok: &Tok) -> bool
    ensures { result ≡ is_word "__has_cpp_attribute" tok.now }
{
    tok.is_named(b"__has_cpp_attribute")
}

pub(crate) fn is_defined(tok: &Tok) -> bool
    ensures { result ≡ is_word "defined" tok.now }
{
    tok.is_named(b"defined")
}

pub(crate) fn is_true(tok: &Tok) -> bool
    ensures { result ≡ is_word "true" tok.now }
{
    tok.is_named(b"true")
}
