ghost use Rattle.std.specs.Prelude.{◌≡◌, None, MatchOption};
ghost use Rattle.substitution.specs.Parens.{IsEnclosed};
ghost use Rattle.scan_model.specs.Parentheses as spec;

use scan_model::Tok;

/// What parentheses enclose, and what follows them.
#[derive(Clone, Copy)]
pub(crate) struct Parens<'a> {
    pub(crate) inside: &'a [Tok],
    pub(crate) after: &'a [Tok],
}

/// None where no parenthesis begins the list, or where it isn't closed.
pub(crate) fn in_parens(toks: &[Tok]) -> Option<Parens<'_>>
    ensures { MatchOption result (spec.in_parens (λ t. t) toks.now ≡ None) (IsEnclosed toks.now (spec.in_parens (λ t. t) toks.now)) }
{
    if toks.is_empty() || !toks[0].is_open_paren() {
        return None;
    }
    enclosed(&toks[1..])
}

/// The same after the open parenthesis.
fn enclosed(toks: &[Tok]) -> Option<Parens<'_>>
    ensures { MatchOption result (spec.enclosed (λ t. t) 0 toks.now ≡ None) (IsEnclosed toks.now (spec.enclosed (λ t. t) 0 toks.now)) }
{
    let mut depth = 0;
    'toks: for i in 0..toks.len() {
        if depth == 0 && toks[i].is_close_paren() {
            return Some(Parens {
                inside: &toks[..i],
                after: &toks[i + 1..],
            });
        }
        depth = toks[i].depth_after(depth);
    }
    None
}
