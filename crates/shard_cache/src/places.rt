//! An index by path.
ghost use Rattle.std.specs.Prelude.{◌≡◌, [], IsSome, OnOk, OnErr};
ghost use Rattle.shard_cache.specs.Places.{place_of, IsPlaced};

use scan_model::NoMemory;
use std::alloc::Global;
use std::collections::HashMap;
use std::marker::Model;

/// Where the rows or the events of a shard stand, by their paths.
#[derive(Drop)]
pub struct Places {
    places: HashMap<Vec<u8>, usize>,
}

impl Model for Places {
    ghost use Rattle.std.specs.Prelude.{List, ℕ};
    ghost use Rattle.shard_cache.specs.Places.{entries};

    ghost Value = { List (List ℕ × ℕ) };

    ghost view = { λ p. entries p.places.entries };
}

impl Places {
    pub fn new(alloc: Global) -> Places
        ensures { result ≡ [] }
    {
        Places {
            places: HashMap::new(alloc),
        }
    }

    /// The place of a path, where it has one. It takes no memory.
    pub fn get(&self, path: &[u8]) -> Option<usize>
        ensures { result ≡ place_of self.now path.now }
    {
        self.places.get(path).copied()
    }

    /// Gives a path a place. `Err` is want of memory and changes nothing.
    pub fn put(&mut self, path: Vec<u8>, place: usize) -> Result<(), NoMemory>
        ensures ok { OnOk result (IsPlaced path.items place self.old self.new) }
        ensures err { OnErr result (self.new ≡ self.old) }
    {
        if self.places.insert(path, place).is_err() {
            return Err(NoMemory);
        }
        Ok(())
    }

    /// Gives a path that has a place another one. It takes no memory.
    pub fn change(&mut self, path: &[u8], place: usize)
        requires { IsSome (place_of self.old path.now) }
        ensures { IsPlaced path.now place self.old self.new }
    {
        let Some(at) = self.places.get_mut(path) else {
            unreachable!()
        };
        *at = place;
    }
}
