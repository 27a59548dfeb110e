ghost use Rattle.std.specs.Prelude.{◌≡◌, [], ◌∷◌, IfOk, OnOk, map};
ghost use Rattle.hide_sets.specs.Sets.{Sets};
ghost use Rattle.scan_model.specs.Substitution as subst;
ghost use Rattle.substitution.specs.Meaning.{marked_of, all_marked_of, arg_of, AreMarked, IsArg};
ghost use Rattle.substitution.specs.Calls.{call_of, Adds};

use crate::call::Call;
use crate::item::Item;
use crate::{Arg, Marked};
use hide_sets::HideSet;
use scan_model::{NoMemory, Tok};
use std::alloc::Global;

/// The same token, with its hide set, in memory of its own. `Err` is want of memory.
pub fn copy_marked(alloc: Global, marked: &Marked) -> Result<Marked, NoMemory>
    ensures { IfOk result (λ copy. copy ≡ marked.now) }
{
    Ok(Marked {
        tok: marked.tok.copy(alloc)?,
        hides: marked.hides,
    })
}

/// A token of the replacement list, on the line of the name.
pub(crate) fn own(alloc: Global, call: &Call, tok: &Tok) -> Result<Marked, NoMemory>
    ensures known { IfOk result (λ own. own.hides ≡ 0) }
    ensures value { IfOk result (λ own. (sets : Sets) → marked_of sets own ≡ subst.own (call_of sets call.now) tok.now) }
{
    let mut copy = tok.copy(alloc)?;
    copy.line = call.line;
    Ok(Marked {
        tok: copy,
        hides: HideSet::empty(),
    })
}

/// Adds a token of the replacement list as an operand.
pub(crate) fn add_own(
    alloc: Global,
    items: &mut Vec<Item>,
    call: &Call,
    tok: &Tok,
) -> Result<(), NoMemory>
    ensures { OnOk result ((sets : Sets) → Adds sets items.old.items items.new.items (subst.Operand (subst.own (call_of sets call.now) tok.now) ∷ [])) }
{
    items.push(Item::Operand(own(alloc, call, tok)?))?;
    Ok(())
}

/// Adds an argument next to `##` as written, and replaced elsewhere; its first token takes the parameter's space.
pub(crate) fn add_given(
    alloc: Global,
    items: &mut Vec<Item>,
    tok: &Tok,
    arg: &Arg,
    next_to_paste: bool,
) -> Result<(), NoMemory>
    ensures { OnOk result ((sets : Sets) → IsArg sets arg.now → Adds sets items.old.items items.new.items (subst.given tok.now (arg_of sets arg.now) next_to_paste)) }
{
    if next_to_paste {
        add_spaced(alloc, items, tok.space, arg.written.as_slice())
    } else {
        add_spaced(alloc, items, tok.space, arg.replaced())
    }
}

/// Adds the tokens, of which the first has this space; a placemarker for none.
fn add_spaced(
    alloc: Global,
    items: &mut Vec<Item>,
    space: bool,
    marked: &[Marked],
) -> Result<(), NoMemory>
    ensures { OnOk result ((sets : Sets) → AreMarked sets marked.now → Adds sets items.old.items items.new.items (subst.items_of (subst.first_spaced space (all_marked_of sets marked.now)))) }
{
    if marked.is_empty() {
        items.push(Item::Placemarker)?;
        return Ok(());
    }
    let mut first = copy_marked(alloc, &marked[0])?;
    first.tok.space = space;
    items.push(Item::Operand(first))?;
    add_all(alloc, items, &marked[1..])?;
    Ok(())
}

fn add_all(alloc: Global, items: &mut Vec<Item>, marked: &[Marked]) -> Result<(), NoMemory>
    ensures { OnOk result ((sets : Sets) → AreMarked sets marked.now → Adds sets items.old.items items.new.items (map subst.Operand (all_marked_of sets marked.now))) }
{
    'marked: for i in 0..marked.len() {
        items.push(Item::Operand(copy_marked(alloc, &marked[i])?))?;
    }
    Ok(())
}
