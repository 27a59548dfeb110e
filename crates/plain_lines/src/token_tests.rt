ghost use Rattle.std.specs.Prelude.{◌≡◌, [], ◌∷◌};
ghost use Rattle.scan_model.specs.declared.token.Kind.TheVariants.{Ident, Header};
ghost use Rattle.scan_model.specs.Spelling.{is_one_of};
ghost use Rattle.scan_model.specs.TokenTests.{is_of, is_open_paren, is_close_paren, is_plain_string, unquoted};
ghost use Rattle.reducer.specs.Views.{view};

use reducer::TokView;
use scan_model::Kind;

/// Whether it is spelled as `#` or `%:`.
pub fn is_hash(tok: TokView<'_>) -> bool
    ensures { result ≡ is_one_of ("#" ∷ "%:" ∷ []) (view tok.entry).text }
{
    matches!(tok.text, b"#" | b"%:")
}

pub fn is_ident(tok: TokView<'_>) -> bool
    ensures { result ≡ is_of Ident (view tok.entry) }
{
    matches!(tok.kind, Kind::Ident)
}

pub fn is_header(tok: TokView<'_>) -> bool
    ensures { result ≡ is_of Header (view tok.entry) }
{
    matches!(tok.kind, Kind::Header)
}

pub fn is_open_paren(tok: TokView<'_>) -> bool
    ensures { result ≡ is_open_paren (view tok.entry) }
{
    matches!(tok.kind, Kind::Punct) && tok.text == b"(".as_slice()
}

pub fn is_close_paren(tok: TokView<'_>) -> bool
    ensures { result ≡ is_close_paren (view tok.entry) }
{
    matches!(tok.kind, Kind::Punct) && tok.text == b")".as_slice()
}

/// Whether it is a string with no prefix, no suffix and no `R` ([lex.string]).
pub fn is_plain_string(tok: TokView<'_>) -> bool
    ensures { result ≡ is_plain_string (view tok.entry) }
{
    let text = tok.text;
    matches!(tok.kind, Kind::Str)
        && text.len() > 0
        && text[0] == b'"'
        && text[text.len() - 1] == b'"'
}

/// The text without its first and its last byte.
pub fn unquoted(text: &[u8]) -> &[u8]
    ensures { result.now ≡ unquoted text.now }
{
    if text.len() < 2 {
        &text[..0]
    } else {
        &text[1..text.len() - 1]
    }
}
