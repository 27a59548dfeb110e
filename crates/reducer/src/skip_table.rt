ghost use Rattle.std.specs.Prelude.{◌≡◌, ◌+◌, ◌<◌, ◌≤◌, false, [], ◌∷◌, length, drop, IfOk};
ghost use Rattle.reducer.specs.SkipTable.{opens, closes, is_else, is_endif, skip_over, skip_among, seen_from, HasSkips, AreSkips};

use scan_model::{Directive, NoMemory, Skip};
use std::alloc::Global;

/// For each line, where the lines after it lead when its group isn't taken ([cpp.cond]). `Err` is want of memory.
///
/// The lines are gone over once, from the last one on, and each `#elif` and `#else` is looked at once more.
pub(crate) fn all_skips(alloc: Global, directives: &[Directive]) -> Result<Vec<Skip>, NoMemory>
    requires { length directives.now ≤ 33554434 }
    ensures { IfOk result (λ skips. AreSkips directives.now skips.items) }
{
    let mut skips = vec![in alloc; Skip::Open(0); directives.len()]?;
    let mut from = directives.len();
    'lines: while from > 0 {
        from -= 1;
        let skip = skip_of(directives, &skips, from);
        skips[from] = skip;
    }
    Ok(skips)
}

// The entry of the line k, after those of the later lines.
fn skip_of(directives: &[Directive], skips: &[Skip], k: usize) -> Skip
    requires here { k < length directives.now }
    requires few { length directives.now ≤ 33554434 }
    requires later { HasSkips directives.now (k + 1) skips.now }
    ensures { result ≡ skip_among directives.now k }
{
    let next = k + 1;
    if next == directives.len() {
        return Skip::Open(k as u32);
    }
    let directive = directives[next];
    if opens(directive) {
        past_conditional(directives, skips, k, next)
    } else if closes(directive) {
        Skip::Partner(next as u32)
    } else {
        seen_from(skips[next], next, k)
    }
}

// What the search of the line k finds past the conditional that the line `opener` opens.
fn past_conditional(directives: &[Directive], skips: &[Skip], k: usize, opener: usize) -> Skip
    requires order { k < opener }
    requires here { opener < length directives.now }
    requires few { length directives.now ≤ 33554434 }
    requires later { HasSkips directives.now (k + 1) skips.now }
    ensures { result ≡ skip_over k (opener + 1) (record { opener = opener; past_else = false } ∷ []) (drop (opener + 1) directives.now) }
{
    let mut at = opener;
    let mut past_else = false;
    'groups: loop {
        match skips[at] {
            Skip::Partner(partner) => {
                let next = partner as usize;
                let directive = directives[next];
                if is_endif(directive) {
                    return seen_from(skips[next], next, k);
                }
                if past_else {
                    return Skip::Broken(partner);
                }
                past_else = is_else(directive);
                at = next;
            }
            ended => return seen_from(ended, at, opener),
        }
    }
}

// What one line's search found, for the line k that comes to it with nothing open: where nothing is open at the end, the
// line k itself is told.
fn seen_from(skip: Skip, of: usize, k: usize) -> Skip
    requires { k ≤ 33554434 }
    ensures { result ≡ seen_from skip of k }
{
    match skip {
        Skip::Open(line) => Skip::Open(if line as usize == of { k as u32 } else { line }),
        Skip::Partner(line) => Skip::Partner(line),
        Skip::Broken(line) => Skip::Broken(line),
    }
}

fn opens(directive: Directive) -> bool
    ensures { result ≡ opens directive }
{
    matches!(
        directive,
        Directive::If | Directive::Ifdef | Directive::Ifndef
    )
}

fn closes(directive: Directive) -> bool
    ensures { result ≡ closes directive }
{
    matches!(
        directive,
        Directive::Elif
            | Directive::Elifdef
            | Directive::Elifndef
            | Directive::Else
            | Directive::Endif
    )
}

fn is_else(directive: Directive) -> bool
    ensures { result ≡ is_else directive }
{
    matches!(directive, Directive::Else)
}

fn is_endif(directive: Directive) -> bool
    ensures { result ≡ is_endif directive }
{
    matches!(directive, Directive::Endif)
}
