//! One shard's lock.
ghost use Rattle.std.specs.Prelude.{◌≡◌, ◌++◌, [], ◌∷◌, ℕ};
ghost use Rattle.shard_cache.specs.Rows.{IsRow, shard_number};
ghost use Rattle.turn_lock.specs.Passes.{IsPassOf, number, seen, lock_fixed};
ghost use Rattle.cache_desk.specs.Log.{standing, Claimed, HasClaim};
ghost use Rattle.cache_desk.specs.Desk.{Looks, log_of, fixed_of, row_published};
ghost use Rattle.shared_cache.specs.Cache.{SeesLook, SeesEntry};

use cache_desk::{Desk, Found};
use file_source::Source;
use scan_model::{NoMemory, PathText};
use shard_cache::KeptRow;
use std::alloc::Global;
use std::sync::Wait;
use turn_lock::{Pass, TurnLock};

/// One look at a path of the lock's shard: one hold of the lock.
pub(crate) fn look_in<S: Source, Q: Wait>(
    lock: &TurnLock<Desk<S>>,
    rt: &Q,
    alloc: Global,
    pass: &mut Pass<Desk<S>>,
    path: &PathText,
) -> Result<Found<S>, NoMemory>
    requires own { IsPassOf lock.now pass.old }
    requires placed { (origin : ℕ) × (lock_fixed fixed_of lock.now ≡ shard_number path.now ∷ origin ∷ []) }
    ensures own { IsPassOf lock.now pass.new × (number pass.new ≡ number pass.old) }
    ensures looks { SeesLook S.opener_path S.opener_origin path.now (number pass.old) (lock_fixed fixed_of lock.now) (seen pass.old) result (seen pass.new) }
{
    let by = pass.number();
    lock.with(
        rt,
        pass,
        move |desk: &mut Desk<S>| -> Result<Found<S>, NoMemory>
            requires { shard_number path.now ≡ desk.old.number }
            ensures { Looks S.given_outcome S.given_bytes S.opener_path S.opener_origin path.entry.now by desk.old result desk.new }
        { desk.look(alloc, path, by) },
    )
}

/// Publishes the row of a claim: one hold of the lock. It takes no memory.
pub(crate) fn publish_in<S: Source, Q: Wait>(
    lock: &TurnLock<Desk<S>>,
    rt: &Q,
    pass: &mut Pass<Desk<S>>,
    row: KeptRow<S>,
)
    requires own { IsPassOf lock.now pass.old }
    requires placed { lock_fixed fixed_of lock.now ≡ shard_number row.path ∷ S.given_origin row.given ∷ [] }
    requires claim { standing (seen pass.old) row.path ≡ Claimed (number pass.old) }
    requires fits { IsRow S.given_path S.given_outcome S.given_bytes row }
    ensures own { IsPassOf lock.now pass.new × (number pass.new ≡ number pass.old) }
    ensures publishes { SeesEntry (number pass.old) (seen pass.old) (row_published S.given_outcome S.given_bytes row (number pass.old)) (seen pass.new) }
{
    let by = pass.number();
    lock.with(
        rt,
        pass,
        move |desk: &mut Desk<S>|
            requires placed { fixed_of desk.old ≡ shard_number row.path ∷ S.given_origin row.given ∷ [] }
            requires claim { HasClaim by row.path (log_of S.given_outcome S.given_bytes desk.old) }
            requires fits { IsRow S.given_path S.given_outcome S.given_bytes row }
            ensures log { log_of S.given_outcome S.given_bytes desk.new ≡ log_of S.given_outcome S.given_bytes desk.old ++ row_published S.given_outcome S.given_bytes row by ∷ [] }
            ensures fixed { fixed_of desk.new ≡ fixed_of desk.old }
        { desk.publish(row, by) },
    )
}
