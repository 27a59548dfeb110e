ghost use Rattle.std.specs.Prelude.{◌≡◌, IfOk, IfSome, Some};
ghost use Rattle.std.specs.Option.{option_map};
ghost use Rattle.hide_sets.specs.Sets.{Sets, Extends};
ghost use Rattle.scan_model.specs.Substitution as subst;
ghost use Rattle.substitution.specs.Meaning.{marked_of, item_of, items_of, IsMarked, IsItem, AreItems, GivesItem, GivesItems};
ghost use Rattle.substitution.specs.Joins.{joined_with};

use crate::Marked;
use crate::item::Item;
use hide_sets::HideSets;
use scan_model::NoMemory;
use std::alloc::Global;
use std::vec::IntoIter;
use token_spelling::paste;

/// The items after each `##` is done, from left to right. None exactly where two tokens make no token together.
pub(crate) fn joined(
    alloc: Global,
    sets: &mut HideSets,
    items: Vec<Item>,
) -> Result<Option<Vec<Item>>, NoMemory>
    requires { AreItems sets.old items.items }
    ensures extended { Extends sets.old sets.new }
    ensures value { IfOk result (GivesItems sets.new (subst.joined (items_of sets.old items.items))) }
{
    let mut done = Vec::new(alloc);
    let mut rest = items.into_iter();
    let Some(first) = rest.next() else {
        return Ok(Some(done));
    };
    let mut left = first;
    'items: while let Some(item) = rest.next() {
        if let Item::Paste(_) = item {
            match joined_with(alloc, sets, left, rest.next())? {
                Some(whole) => left = whole,
                None => return Ok(None),
            }
        } else {
            done.push(left)?;
            left = item;
        }
    }
    done.push(left)?;
    Ok(Some(done))
}

/// What a `##` makes of the item before it and the item after it; the one before it where none follows.
fn joined_with(
    alloc: Global,
    sets: &mut HideSets,
    left: Item,
    right: Option<Item>,
) -> Result<Option<Item>, NoMemory>
    requires left { IsItem sets.old left }
    requires right { IfSome right (IsItem sets.old) }
    ensures extended { Extends sets.old sets.new }
    ensures value { IfOk result (GivesItem sets.new (joined_with (item_of sets.old left) (option_map (item_of sets.old) right))) }
{
    match right {
        Some(right) => join(alloc, sets, left, right),
        None => Ok(Some(left)),
    }
}

fn join(
    alloc: Global,
    sets: &mut HideSets,
    left: Item,
    right: Item,
) -> Result<Option<Item>, NoMemory>
    requires left { IsItem sets.old left }
    requires right { IsItem sets.old right }
    ensures extended { Extends sets.old sets.new }
    ensures value { IfOk result (GivesItem sets.new (subst.join (item_of sets.old left) (item_of sets.old right))) }
{
    match left {
        Item::Placemarker => Ok(Some(as_operand(right))),
        Item::Operand(left) | Item::Paste(left) => join_token(alloc, sets, left, right),
    }
}

fn join_token(
    alloc: Global,
    sets: &mut HideSets,
    left: Marked,
    right: Item,
) -> Result<Option<Item>, NoMemory>
    requires left { IsMarked sets.old left }
    requires right { IsItem sets.old right }
    ensures extended { Extends sets.old sets.new }
    ensures value { IfOk result (GivesItem sets.new (subst.join (subst.Operand (marked_of sets.old left)) (item_of sets.old right))) }
{
    match right {
        Item::Placemarker => Ok(Some(Item::Operand(left))),
        Item::Operand(right) | Item::Paste(right) => join_tokens(alloc, sets, &left, &right),
    }
}

/// The token that both spellings make together, which hides what both hide.
fn join_tokens(
    alloc: Global,
    sets: &mut HideSets,
    left: &Marked,
    right: &Marked,
) -> Result<Option<Item>, NoMemory>
    requires left { IsMarked sets.old left.now }
    requires right { IsMarked sets.old right.now }
    ensures extended { Extends sets.old sets.new }
    ensures value { IfOk result (GivesItem sets.new (subst.join_marked (marked_of sets.old left.now) (marked_of sets.old right.now))) }
{
    match paste(alloc, &left.tok, &right.tok)? {
        Some(tok) => Ok(Some(Item::Operand(Marked {
            tok,
            hides: sets.common(left.hides, right.hides)?,
        }))),
        None => Ok(None),
    }
}

/// The item as what a `##` has made.
fn as_operand(item: Item) -> Item
    ensures known { (sets : Sets) → IsItem sets item → IsItem sets result }
    ensures value { (sets : Sets) → subst.join subst.Placemarker (item_of sets item) ≡ Some (item_of sets result) }
{
    match item {
        Item::Paste(marked) => Item::Operand(marked),
        Item::Operand(_) | Item::Placemarker => item,
    }
}
