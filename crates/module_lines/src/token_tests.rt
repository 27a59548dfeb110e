ghost use Rattle.std.specs.Prelude.{◌≡◌, [], ◌∷◌};
ghost use Rattle.scan_model.specs.TokenTests.{is_sign};
ghost use Rattle.scan_model.specs.ModuleLines.{names_header, is_ended, is_private};
ghost use Rattle.module_lines.specs.Further.{has_further};

use scan_model::{Kind, Tok};

pub(crate) fn is_semicolon(tok: &Tok) -> bool
    ensures { result ≡ is_sign (";" ∷ []) tok.now }
{
    matches!(tok.kind, Kind::Punct) && tok.text.as_slice() == b";".as_slice()
}

pub(crate) fn is_dot(tok: &Tok) -> bool
    ensures { result ≡ is_sign ("." ∷ []) tok.now }
{
    matches!(tok.kind, Kind::Punct) && tok.text.as_slice() == b".".as_slice()
}

pub(crate) fn is_colon(tok: &Tok) -> bool
    ensures { result ≡ is_sign (":" ∷ []) tok.now }
{
    matches!(tok.kind, Kind::Punct) && tok.text.as_slice() == b":".as_slice()
}

/// A `[`, also written `<:`.
pub(crate) fn is_bracket(tok: &Tok) -> bool
    ensures { result ≡ is_sign ("[" ∷ "<:" ∷ []) tok.now }
{
    matches!(tok.kind, Kind::Punct) && matches!(tok.text.as_slice(), b"[" | b"<:")
}

/// A header's name, or what begins one.
pub(crate) fn names_header(tok: &Tok) -> bool
    ensures { result ≡ names_header tok.now }
{
    match tok.kind {
        Kind::Header | Kind::Str => true,
        Kind::Punct => tok.text.as_slice() == b"<".as_slice(),
        _ => false,
    }
}

/// Whether a name may end before these tokens: at the end, or at a `[`.
pub(crate) fn is_ended(toks: &[Tok]) -> bool
    ensures { result ≡ is_ended toks.now }
{
    toks.is_empty() || is_bracket(&toks[0])
}

/// Whether the tokens are the word `private` alone.
pub(crate) fn is_private(toks: &[Tok]) -> bool
    ensures { result ≡ is_private toks.now }
{
    toks.len() == 1 && toks[0].text.as_slice() == b"private".as_slice()
}

/// Whether a dotted name goes on with a `.` and an identifier.
pub(crate) fn has_further(toks: &[Tok]) -> bool
    ensures { result ≡ has_further toks.now }
{
    toks.len() >= 2 && is_dot(&toks[0]) && toks[1].is_ident()
}
