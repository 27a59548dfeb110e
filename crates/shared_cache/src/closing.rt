//! How a cache is closed.
ghost use Rattle.std.specs.Prelude.{◌≡◌, length, map, All};
ghost use Rattle.cache_desk.specs.Desk.{fixed_of};
ghost use Rattle.shard_cache.specs.Rows.{all_origins, all_rows};
ghost use Rattle.shard_cache.specs.StoreMap.{IsOneMap, file_map};
ghost use Rattle.shared_cache.specs.Shared.{second, locks_fixed, ArePasses, all_seen, HavePasses, HasRowsOf};
ghost use Rattle.shared_cache.specs.Closed.{AreClaimed, IsPublished};

use crate::parts::Parts;
use crate::room::Room;
use crate::{Cache, Passes};
use file_source::Source;
use scan_model::Items;
use shard_cache::Store;

impl<S: Source> Cache<S> {
    /// The store of the rows that were published, for all passes. A path that is only claimed has no row. It takes no memory.
    pub fn close(self, passes: Items<Passes<S>>) -> Store<S>
        requires all { HavePasses self.locks.items (length passes) }
        requires own { All (λ p. ArePasses self.locks.items p.passes.items p.number) passes }
        ensures seen { All (λ p. HasRowsOf (file_map S.given_outcome S.given_bytes (all_rows result)) (all_seen p.passes.items)) passes }
        ensures published { All (IsPublished S.given_outcome S.given_bytes passes) (all_rows result) }
        ensures claims { AreClaimed passes 0 result }
        ensures map { IsOneMap S.given_path S.given_origin result }
        ensures origins { all_origins result ≡ map second (locks_fixed fixed_of self.locks.items) }
    {
        let Cache {
            locks,
            room,
            bells: _,
        } = self;
        let Room { rows, shards } = room.into_inner();
        let hands = passes.into_vec();
        let parts = Parts {
            locks,
            rooms: rows,
            hands,
        };
        Store::of_shards(parts.close(shards))
    }
}
