ghost use Rattle.std.specs.Prelude.{◌≡◌, [], ◌∷◌, ◌++◌, if◌then◌else◌, IfOk, OnOk};
ghost use Rattle.hide_sets.specs.Sets.{Sets};
ghost use Rattle.scan_model.specs.Substitution as subst;
ghost use Rattle.substitution.specs.Meaning.{item_of, items_of, all_marked_of, IsItem, AreItems, AreMarked};
ghost use Rattle.substitution.specs.Calls.{call_of, Adds, AddsString, opt_result};
ghost use Rattle.substitution.specs.Joins.{stands, item_spaced};

use crate::Marked;
use crate::call::Call;
use crate::item::Item;
use crate::parts::add_string;
use scan_model::{NoMemory, Tok};
use std::alloc::Global;

/// Adds what `__VA_OPT__` gives, whose content has given these items; `#` makes a string of it. False where that is no
/// one string, and nothing is added.
pub(crate) fn add_opt(
    alloc: Global,
    items: &mut Vec<Item>,
    call: &Call,
    hashed: bool,
    tok: &Tok,
    content: Vec<Item>,
) -> Result<bool, NoMemory>
    ensures { IfOk result (λ made. (sets : Sets) → AreItems sets content.items → AddsString sets items.old.items items.new.items (opt_result (call_of sets call.now) hashed tok.now (items_of sets content.items)) made) }
{
    if hashed {
        let marked = without_placemarkers(alloc, content)?;
        let made = add_string(alloc, items, call, tok, marked.as_slice())?;
        return Ok(made);
    }
    add_content(items, tok.space, content)?;
    Ok(true)
}

/// The tokens that stand for something.
pub(crate) fn without_placemarkers(alloc: Global, items: Vec<Item>) -> Result<Vec<Marked>, NoMemory>
    ensures known { IfOk result (λ marked. (sets : Sets) → AreItems sets items.items → AreMarked sets marked.items) }
    ensures value { IfOk result (λ marked. (sets : Sets) → all_marked_of sets marked.items ≡ subst.without_placemarkers (items_of sets items.items)) }
{
    let mut marked = Vec::new(alloc);
    let mut rest = items.into_iter();
    'items: while let Some(item) = rest.next() {
        push_token(&mut marked, item)?;
    }
    Ok(marked)
}

/// Adds the item's token, if it stands for one.
fn push_token(marked: &mut Vec<Marked>, item: Item) -> Result<(), NoMemory>
    ensures known { OnOk result ((sets : Sets) → AreMarked sets marked.old.items → IsItem sets item → AreMarked sets marked.new.items) }
    ensures value { OnOk result ((sets : Sets) → all_marked_of sets marked.new.items ≡ all_marked_of sets marked.old.items ++ subst.without_placemarkers (item_of sets item ∷ [])) }
{
    match item {
        Item::Placemarker => Ok(()),
        Item::Operand(token) | Item::Paste(token) => {
            marked.push(token)?;
            Ok(())
        }
    }
}

/// Adds the content of `__VA_OPT__`, whose first token takes this space; a placemarker for none.
fn add_content(items: &mut Vec<Item>, space: bool, content: Vec<Item>) -> Result<(), NoMemory>
    ensures { OnOk result ((sets : Sets) → AreItems sets content.items → Adds sets items.old.items items.new.items (subst.first_item_spaced space (subst.or_placemarker (items_of sets content.items)))) }
{
    if content.is_empty() {
        items.push(Item::Placemarker)?;
        return Ok(());
    }
    let mut rest = content.into_iter();
    let mut first = true;
    'items: while let Some(item) = rest.next() {
        let further = first & !stands(&item);
        items.push(spaced(first, space, item))?;
        first = further;
    }
    Ok(())
}

/// Whether the item isn't a placemarker.
fn stands(item: &Item) -> bool
    ensures { result ≡ stands item.now }
{
    !matches!(item, Item::Placemarker)
}

/// The item, which takes this space where it is the first token.
fn spaced(first: bool, space: bool, item: Item) -> Item
    ensures known { (sets : Sets) → IsItem sets item → IsItem sets result }
    ensures value { (sets : Sets) → item_of sets result ≡ (if first then item_spaced space (item_of sets item) else item_of sets item) }
{
    if !first {
        return item;
    }
    match item {
        Item::Placemarker => Item::Placemarker,
        Item::Operand(marked) => Item::Operand(marked_spaced(space, marked)),
        Item::Paste(marked) => Item::Paste(marked_spaced(space, marked)),
    }
}

fn marked_spaced(space: bool, marked: Marked) -> Marked
    ensures { result ≡ record marked { tok = record marked.tok { space = space } } }
{
    let mut marked = marked;
    marked.tok.space = space;
    marked
}
