ghost use Rattle.std.specs.Prelude.{◌≡◌, ℕ, true, List, [], ◌∷◌, ◌<◌, ◌≤◌, IfOk, OnErr, MatchOption, ◌&&◌, ◌||◌};
ghost use Rattle.scan_model.specs.Expansion.{also};
ghost use Rattle.hide_sets.specs.Sets.{IsSet, names_of, latest_of, hides_of, Extends, Makes};

use crate::HideSet;
use scan_model::{Bytes, NoMemory};
use std::alloc::Global;
use std::marker::Model;
use string_set::StringSet;

/// A set that is one name more than an earlier one.
#[derive(Clone, Copy)]
pub(crate) struct Node {
    /// The name's place among the table's names.
    pub(crate) name: usize,
    pub(crate) parent: HideSet,
}

/// The sets of names that the tokens of one expansion carry. Contracts see the list of the names of each set.
///
/// A set shares what it has with the set that it was made from: one name more takes one node, whatever the set's size.
#[derive(Drop)]
pub struct HideSets {
    names: Vec<Bytes>,
    nodes: Vec<Node>,
    /// The same names: one that isn't among them is in no set.
    known: StringSet,
}

impl Model for HideSets {
    ghost use Rattle.std.specs.Prelude.{[]};
    ghost use Rattle.hide_sets.specs.Sets.{Sets};
    ghost use Rattle.hide_sets.specs.Nodes.{IsTree, AreKnown, sets_from};

    ghost Value = { Sets };

    ghost view = { λ table. sets_from table.names.items [] table.nodes.items };

    ghost invariant = { λ table. IsTree table.names.items table.nodes.items × AreKnown table.known table.names.items };
}

/// The latest name of a set, and the set without it.
#[derive(Drop)]
pub(crate) struct Latest<'a> {
    pub(crate) name: &'a [u8],
    pub(crate) rest: HideSet,
}

impl HideSets {
    /// The empty set alone.
    pub fn new(alloc: Global) -> HideSets
        ensures { result ≡ [] }
    {
        HideSets {
            names: Vec::new(alloc),
            nodes: Vec::new(alloc),
            known: StringSet::new(alloc),
        }
    }

    /// Whether the set has the name. Linear in the set's size where some set has the name, and else in constant time.
    pub fn hides(&self, set: HideSet, name: &[u8]) -> bool
        requires { IsSet self.now set }
        ensures { result ≡ hides_of self.now set name.now }
    {
        if !self.known.contains(name) {
            return false;
        }
        let mut at = set;
        'names: while let Some(latest) = self.latest(at) {
            if latest.name == name {
                return true;
            }
            at = latest.rest;
        }
        false
    }

    /// The set and the name, in constant time and memory beside the name's own bytes.
    pub fn also(&mut self, alloc: Global, set: HideSet, name: &[u8]) -> Result<HideSet, NoMemory>
        requires { IsSet self.old set }
        ensures ok { IfOk result (Makes self.old self.new (also name.now (hides_of self.old set))) }
        ensures err { OnErr result (self.new ≡ self.old) }
    {
        let copy = Bytes::copy(alloc, name)?;
        self.known.insert(name)?;
        let number = self.names.len();
        self.names.push(copy)?;
        self.nodes.push(Node {
            name: number,
            parent: set,
        })?;
        Ok(HideSet::of_number(self.nodes.len()))
    }

    /// The names that both sets have.
    ///
    /// Where one set was made from the other, linear in the names between them; else each name of the one that they
    /// don't share is looked for in the other.
    pub fn common(&mut self, first: HideSet, second: HideSet) -> Result<HideSet, NoMemory>
        requires first { IsSet self.old first }
        requires second { IsSet self.old second }
        ensures ok { IfOk result (Makes self.old self.new (λ name. hides_of self.old first name && hides_of self.old second name)) }
        ensures err { OnErr result (Extends self.old self.new) }
    {
        let shared = self.shared(first, second);
        if shared.is_same(second) {
            return Ok(second);
        }
        let mut made = shared;
        let mut at = first;
        'names: while !at.is_same(shared) && !at.is_empty() {
            if self.has_latest_of(second, at) {
                made = self.with_latest_of(made, at)?;
            }
            at = self.without_latest(at);
        }
        Ok(made)
    }

    /// The names of both sets together, in the time that `common` takes.
    pub fn either(&mut self, first: HideSet, second: HideSet) -> Result<HideSet, NoMemory>
        requires first { IsSet self.old first }
        requires second { IsSet self.old second }
        ensures ok { IfOk result (Makes self.old self.new (λ name. hides_of self.old first name || hides_of self.old second name)) }
        ensures err { OnErr result (Extends self.old self.new) }
    {
        let shared = self.shared(first, second);
        if shared.is_same(first) {
            return Ok(second);
        }
        if shared.is_same(second) {
            return Ok(first);
        }
        let mut made = first;
        let mut left = first;
        let mut right = second;
        'names: while !left.is_same(right) {
            if right.number() < left.number() {
                left = self.without_latest(left);
            } else {
                if !self.has_latest_of(first, right) {
                    made = self.with_latest_of(made, right)?;
                }
                right = self.without_latest(right);
            }
        }
        Ok(made)
    }

    /// A set that both were made from.
    fn shared(&self, first: HideSet, second: HideSet) -> HideSet
        requires first { IsSet self.now first }
        requires second { IsSet self.now second }
        ensures is_set { IsSet self.now result }
        ensures in_first { (name : List ℕ) → hides_of self.now result name ≡ true → hides_of self.now first name ≡ true }
        ensures in_second { (name : List ℕ) → hides_of self.now result name ≡ true → hides_of self.now second name ≡ true }
    {
        if first.is_empty() || second.is_empty() {
            return HideSet::empty();
        }
        let mut left = first;
        let mut right = second;
        'names: while !left.is_same(right) {
            if right.number() < left.number() {
                left = self.without_latest(left);
            } else {
                right = self.without_latest(right);
            }
        }
        left
    }

    /// The set and the latest name of another.
    fn with_latest_of(&mut self, set: HideSet, other: HideSet) -> Result<HideSet, NoMemory>
        requires set { IsSet self.old set }
        requires other { IsSet self.old other }
        requires some { 0 < other }
        ensures ok { IfOk result (Makes self.old self.new (also (latest_of self.old other) (hides_of self.old set))) }
        ensures err { OnErr result (self.new ≡ self.old) }
    {
        let name = self.nodes[other.number() - 1].name;
        self.nodes.push(Node { name, parent: set })?;
        Ok(HideSet::of_number(self.nodes.len()))
    }

    /// Whether the set has the latest name of another.
    fn has_latest_of(&self, set: HideSet, other: HideSet) -> bool
        requires set { IsSet self.now set }
        requires other { IsSet self.now other }
        requires some { 0 < other }
        ensures { result ≡ hides_of self.now set (latest_of self.now other) }
    {
        match self.latest(other) {
            Some(latest) => self.hides(set, latest.name),
            None => unreachable!(),
        }
    }

    fn without_latest(&self, set: HideSet) -> HideSet
        requires set { IsSet self.now set }
        requires some { 0 < set }
        ensures earlier { result < set }
        ensures names { names_of self.now set ≡ latest_of self.now set ∷ names_of self.now result }
    {
        match self.latest(set) {
            Some(latest) => latest.rest,
            None => unreachable!(),
        }
    }

    /// None for the empty set.
    fn latest(&self, set: HideSet) -> Option<Latest<'_>>
        requires { IsSet self.now set }
        ensures { MatchOption result (set ≡ 0) (λ latest. (latest.rest < set) × (names_of self.now set ≡ latest.name.now ∷ names_of self.now latest.rest)) }
    {
        if set.number() == 0 {
            return None;
        }
        let node = self.nodes[set.number() - 1];
        Some(Latest {
            name: self.names[node.name].as_slice(),
            rest: node.parent,
        })
    }
}
