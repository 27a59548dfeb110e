ghost use Rattle.std.specs.Prelude.{◌≡◌, ◌<◌, length, IfOk, IsTrue, ◌↔◌, [], ◌∷◌, OnOk, MatchOption, drop, slice_get};
ghost use Rattle.std.specs.Option.{option_copied};
ghost use Rattle.hide_sets.specs.Sets.{IsSet, hides_of, Extends};
ghost use Rattle.substitution.specs.Meaning.{AreMarked};
ghost use Rattle.list_stack.specs.Stacks.{is_called, PutsBefore, Opens, Cuts};

use crate::cuts::{close_of_first, commas, floor, with_places};
use crate::entry::Entry;
use crate::filling::{entries_of, put_on_top};
use hide_sets::{HideSet, HideSets};
use scan_model::{Items, NoMemory};
use std::alloc::Global;
use std::marker::Model;
use substitution::{Marked, copy_marked};

/// Lists of tokens that are to be replaced, one inside the other: the first is at work, and each of the others is to be
/// at work after the one before has ended. After an `Err` nothing is said of the stack.
///
/// A call costs what it takes or puts. `open` is in constant time, and `cut` in the number of the commas that it cuts at
/// and of the `)` before them that nothing opened.
#[derive(Drop)]
pub struct ListStack {
    alloc: Global,
    /// The tokens of all lists: the next one is the last.
    entries: Vec<Entry>,
    /// The entry at which each list ends that has another behind it: the list at work has the last.
    ends: Vec<usize>,
}

impl Model for ListStack {
    ghost use Rattle.std.specs.Prelude.{length, reverse};
    ghost use Rattle.list_stack.specs.Stacks.{Stack};

    ghost Value = { Stack };

    ghost use Rattle.list_stack.specs.Places.{AreStack, stack_of};

    ghost view = { λ s. stack_of s.entries.items (reverse s.ends.items) };

    ghost invariant = { λ s. AreStack s.entries.items (reverse s.ends.items) };
}

impl ListStack {
    /// One list alone.
    pub fn of_list(alloc: Global, list: Vec<Marked>) -> Result<ListStack, NoMemory>
        ensures { IfOk result (λ stack. stack ≡ record { first = list.items; others = [] }) }
    {
        Ok(ListStack {
            alloc,
            entries: entries_of(alloc, list)?,
            ends: Vec::new(alloc),
        })
    }

    /// Takes the first token off the list at work. None where that list is empty.
    pub fn next(&mut self) -> Option<Marked>
        ensures { MatchOption result ((self.old.first ≡ []) × (self.new ≡ self.old)) (λ m. self.old ≡ record self.new { first = m ∷ self.new.first }) }
    {
        if self.entries.len() <= floor(self.ends.as_slice()) {
            return None;
        }
        let Some(entry) = self.entries.pop() else {
            return None;
        };
        Some(entry.marked)
    }

    /// The token at a place of the list at work, whose next token has 0.
    pub fn at(&self, place: usize) -> Option<&Marked>
        ensures { option_copied result ≡ slice_get self.now.first place }
    {
        let count = self.entries.len();
        if place < count - floor(self.ends.as_slice()) {
            Some(&self.entries[count - 1 - place].marked)
        } else {
            None
        }
    }

    /// Takes this many tokens off the list at work, or all that it has.
    pub fn skip(&mut self, count: usize)
        ensures { self.new ≡ record self.old { first = drop count self.old.first } }
    {
        let kept = self.entries.len().saturating_sub(count);
        self.entries.truncate(kept.max(floor(self.ends.as_slice())));
    }

    /// Whether the list at work begins with a `(`.
    pub fn is_called(&self) -> bool
        ensures { result ≡ is_called self.now.first }
    {
        match self.at(0) {
            Some(marked) => marked.tok.is_open_paren(),
            None => false,
        }
    }

    /// Whether the list at work has ended.
    pub fn is_empty_list(&self) -> bool
        ensures { IsTrue result ↔ (self.now.first ≡ []) }
    {
        self.at(0).is_none()
    }

    /// Whether no list follows the list at work.
    pub fn is_last_list(&self) -> bool
        ensures { IsTrue result ↔ (length self.now.others ≡ 0) }
    {
        self.ends.is_empty()
    }

    /// Puts a list before the list at work, each token of which hides the added names too.
    pub fn put_before(
        &mut self,
        sets: &mut HideSets,
        list: Items<Marked>,
        added: HideSet,
    ) -> Result<(), NoMemory>
        requires list { AreMarked sets.old list }
        requires rest { AreMarked sets.old self.old.first }
        requires added { IsSet sets.old added }
        ensures extended { Extends sets.old sets.new }
        ensures value { OnOk result (PutsBefore sets.old sets.new (hides_of sets.old added) list self.old.first self.new.first) }
        ensures others { OnOk result (self.new.others ≡ self.old.others) }
    {
        put_on_top(&mut self.entries, sets, list, added)
    }

    /// Where the list at work begins with parentheses: what they enclose comes to be at work, and then what follows
    /// them, and the answer is the hide set of the `)`. None where no `(` comes first or it isn't closed, and then
    /// nothing is said of the stack.
    pub fn open(&mut self) -> Result<Option<HideSet>, NoMemory>
        ensures { IfOk result (Opens self.old self.new) }
    {
        let floor = floor(self.ends.as_slice());
        let Some(close) = close_of_first(self.entries.as_slice(), floor) else {
            return Ok(None);
        };
        let hides = self.entries[close].marked.hides;
        self.ends.push(close)?;
        self.entries.truncate(self.entries.len() - 1);
        Ok(Some(hides))
    }

    /// Cuts the list at work at its first commas outside parentheses, at most this many. The answer is how many lists
    /// came of it, the first of which is at work.
    pub fn cut(&mut self, most: usize) -> Result<usize, NoMemory>
        ensures { IfOk result (Cuts most self.old self.new) }
    {
        let floor = floor(self.ends.as_slice());
        let places = commas(self.alloc, self.entries.as_slice(), floor, most)?;
        let count = places.len() + 1;
        let ends = std::mem::replace(&mut self.ends, Vec::new(self.alloc));
        self.ends = with_places(ends, places)?;
        Ok(count)
    }

    /// Goes on to the next list, where the list at work has ended.
    pub fn end_list(&mut self)
        requires ended { self.old.first ≡ [] }
        requires another { 0 < length self.old.others }
        ensures { self.old.others ≡ self.new.first ∷ self.new.others }
    {
        if let Some(end) = self.ends.pop() {
            self.entries.truncate(end);
        }
    }

    /// Takes what is left of the list at work, and goes on to the next list.
    pub fn take_list(&mut self, alloc: Global) -> Result<Vec<Marked>, NoMemory>
        requires { 0 < length self.old.others }
        ensures list { IfOk result (λ list. list.items ≡ self.old.first) }
        ensures rest { OnOk result (self.old.others ≡ self.new.first ∷ self.new.others) }
    {
        let mut list = Vec::new(alloc);
        'list: while let Some(marked) = self.next() {
            list.push(marked)?;
        }
        self.end_list();
        Ok(list)
    }

    /// What is left of the list at work, in memory of its own.
    pub fn copy_list(&self, alloc: Global) -> Result<Vec<Marked>, NoMemory>
        ensures { IfOk result (λ list. list.items ≡ self.now.first) }
    {
        let mut list = Vec::new(alloc);
        'list: while let Some(marked) = self.at(list.len()) {
            list.push(copy_marked(alloc, marked)?)?;
        }
        Ok(list)
    }
}
