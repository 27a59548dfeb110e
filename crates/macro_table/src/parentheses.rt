ghost use Rattle.std.specs.Prelude.{◌≡◌};
ghost use Rattle.std.specs.Option.{option_map};
ghost use Rattle.macro_table.specs.Names.{enclosed_tokens, inside_parens};

use scan_model::Tok;

/// What the parenthesis that begins the tokens encloses. None exactly where none does, or where it isn't closed.
pub(crate) fn inside_parens(toks: &[Tok]) -> Option<&[Tok]>
    ensures { option_map (λ ts. ts.now) result ≡ inside_parens toks.now }
{
    if toks.is_empty() || !toks[0].is_open_paren() {
        return None;
    }
    before_close(&toks[1..])
}

/// The tokens before the `)` of an open parenthesis.
fn before_close(toks: &[Tok]) -> Option<&[Tok]>
    ensures { option_map (λ ts. ts.now) result ≡ enclosed_tokens 0 toks.now }
{
    let mut depth = 0usize;
    for (i, tok) in toks.iter().enumerate() {
        if depth == 0 && tok.is_close_paren() {
            return Some(&toks[..i]);
        }
        depth = tok.depth_after(depth);
    }
    None
}
