ghost use Rattle.std.specs.Prelude.{◌≡◌, ◌^◌, ◌<◌, IfOk, map};
ghost use Rattle.macro_table.specs.Table.{macros_of};
ghost use Rattle.scan_model.specs.Expansion as expansion;
ghost use Rattle.expansion.specs.Lists.{unhidden};

use crate::machine::{Machine, Turn};
use crate::scope::Scope;
use crate::straight::straight;
use hide_sets::{HideSet, HideSets};
use list_stack::ListStack;
use macro_table::Macros;
use scan_model::{Expanded, Mode, NoMemory, Site, Tok};
use std::alloc::Global;
use substitution::Marked;

/// The tokens with every macro replaced, from the left ([cpp.replace], [cpp.rescan]); `__COUNTER__` gives the mode's number
/// first, which is below 2^63.
///
/// `Bad`, `TooLong` and `Counter` come where the definition says, the first of them from the left. It doesn't recurse: the
/// calls whose arguments are being replaced stand on a stack of their own.
pub fn expand(
    alloc: Global,
    macros: &Macros,
    site: &Site,
    mode: Mode,
    toks: &[Tok],
) -> Result<Expanded, NoMemory>
    requires { expansion.first_counter mode < 2 ^ 63 }
    ensures { IfOk result (λ expanded. expanded ≡ expansion.expand (macros_of macros.now).defs site.now mode toks.now) }
{
    let scope = Scope { macros, site, mode };
    if let Some(list) = straight(alloc, &scope, toks)? {
        return Ok(Expanded::Done(list, first_counter(mode)));
    }
    let mut machine = Machine {
        alloc,
        sets: HideSets::new(alloc),
        todo: ListStack::of_list(alloc, unhidden(alloc, toks)?)?,
        out: Vec::new(alloc),
        calls: Vec::new(alloc),
        cost: 0,
        counter: first_counter(mode),
    };
    'turns: loop {
        match machine.turn(&scope)? {
            Turn::Goes => {}
            Turn::Ends(answer) => return Ok(answer),
        }
    }
}

/// The number that `__COUNTER__` gives first, and 0 outside text.
fn first_counter(mode: Mode) -> u64
    ensures { result ≡ expansion.first_counter mode }
{
    match mode {
        Mode::Text(counter) => counter,
        _ => 0,
    }
}

/// The tokens, each of which may be replaced.
fn unhidden(alloc: Global, toks: &[Tok]) -> Result<Vec<Marked>, NoMemory>
    ensures { IfOk result (λ list. list.items ≡ map unhidden toks.now) }
{
    let mut list = Vec::new(alloc);
    for tok in toks {
        list.push(Marked {
            tok: tok.copy(alloc)?,
            hides: HideSet::empty(),
        })?;
    }
    Ok(list)
}
