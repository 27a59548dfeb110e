ghost use Rattle.std.specs.Prelude.{◌≡◌, ◌≤◌, IfOk, OnOk, length};
ghost use Rattle.hide_sets.specs.Sets.{IsSet, hides_of, Extends};
ghost use Rattle.substitution.specs.Meaning.{AreMarked};
ghost use Rattle.list_stack.specs.Places.{AreLinked, AddsHidden, tokens};

use crate::entry::{Entry, push_entry};
use hide_sets::{HideSet, HideSets};
use scan_model::{Items, NoMemory};
use std::alloc::Global;
use substitution::Marked;

/// The entries of one list.
pub(crate) fn entries_of(alloc: Global, list: Vec<Marked>) -> Result<Vec<Entry>, NoMemory>
    ensures linked { IfOk result (λ entries. AreLinked entries.items) }
    ensures list { IfOk result (λ entries. tokens entries.items ≡ list.items) }
{
    let mut entries = Vec::new(alloc);
    let mut left = list;
    'left: while let Some(marked) = left.pop() {
        push_entry(&mut entries, marked)?;
    }
    Ok(entries)
}

/// Puts a list on top, each token of which hides the added names too.
pub(crate) fn put_on_top(
    entries: &mut Vec<Entry>,
    sets: &mut HideSets,
    list: Items<Marked>,
    added: HideSet,
) -> Result<(), NoMemory>
    requires linked { AreLinked entries.old.items }
    requires list { AreMarked sets.old list }
    requires added { IsSet sets.old added }
    ensures linked { AreLinked entries.new.items }
    ensures grown { length entries.old.items ≤ length entries.new.items }
    ensures extended { Extends sets.old sets.new }
    ensures value { OnOk result (AddsHidden sets.old sets.new (hides_of sets.old added) list entries.old.items entries.new.items) }
{
    let mut left = list.into_vec();
    'left: while let Some(marked) = left.pop() {
        let hides = sets.either(marked.hides, added)?;
        push_entry(
            entries,
            Marked {
                tok: marked.tok,
                hides,
            },
        )?;
    }
    Ok(())
}
