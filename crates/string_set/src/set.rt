ghost use Rattle.std.specs.Prelude.{◌≡◌, [], OnOk, OnErr};
ghost use Rattle.scan_model.specs.TokenTests.{is_among};
ghost use Rattle.scan_model.specs.Expansion.{also};

use scan_model::NoMemory;
use std::alloc::Global;
use std::collections::HashSet;
use std::marker::Model;

/// A set of byte strings, which contracts see as the list of them in some order.
#[derive(Drop)]
pub struct StringSet {
    alloc: Global,
    strings: HashSet<Vec<u8>>,
}

impl Model for StringSet {
    ghost use Rattle.std.specs.Prelude.{List, ℕ, map};

    ghost Value = { List (List ℕ) };

    ghost view = { λ s. map (λ string. string.items) s.strings.keys };
}

impl StringSet {
    /// No string. It takes no memory.
    pub fn new(alloc: Global) -> StringSet
        ensures { result ≡ [] }
    {
        StringSet {
            alloc,
            strings: HashSet::new(alloc),
        }
    }

    /// Whether the string is in it. It takes no memory.
    pub fn contains(&self, string: &[u8]) -> bool
        ensures { result ≡ is_among self.now string.now }
    {
        self.strings.contains(string)
    }

    /// Puts the string into it, a copy where it wasn't there. Want of memory changes nothing.
    pub fn insert(&mut self, string: &[u8]) -> Result<(), NoMemory>
        ensures ok { OnOk result (is_among self.new ≡ also string.now (is_among self.old)) }
        ensures err { OnErr result (self.new ≡ self.old) }
    {
        let key = Vec::from_slice(self.alloc, string)?;
        self.strings.insert(key)?;
        Ok(())
    }
}
