//! The cache, and one worker's passes.
ghost use Rattle.std.specs.Prelude.{◌≡◌, ◌≤◌, length, All};
ghost use Rattle.cache_desk.specs.Desk.{log_of, fixed_of};
ghost use Rattle.turn_lock.specs.Passes.{pass_count};
ghost use Rattle.shared_cache.specs.Shared.{AreNumbered, AreFresh, locks_fixed};

use crate::room::Room;
use cache_desk::Desk;
use file_source::Source;
use std::sync::{Condvar, Mutex};
use turn_lock::{Logged, Pass, TurnLock};

/// A bell, which rings when a row of its shard is done.
#[derive(Drop)]
pub(crate) struct Bell {
    pub(crate) count: Mutex<u64>,
    pub(crate) rung: Condvar,
}

/// The shards of a store, each under a lock of its own, for workers that look and publish.
pub struct Cache<S: Source>
where
    Desk<S>: Logged,
{
    pub(crate) locks: Vec<TurnLock<Desk<S>>>,
    pub(crate) bells: Vec<Bell>,
    /// What closing takes. It is under a lock since workers share the cache, and nothing in it may be shared as it is.
    pub(crate) room: Mutex<Room<S>>,
    ghost sixteen: { (length locks.items ≡ 16) × (length bells.items ≡ 16) },
    ghost numbered: { AreNumbered (locks_fixed fixed_of locks.items) },
    ghost fresh: { AreFresh (log_of S.given_outcome S.given_bytes) locks.items },
    ghost few: { All (λ lock. pass_count lock ≤ 64) locks.items },
}

/// One worker's passes, one of each shard's lock.
#[derive(Drop)]
pub struct Passes<S: Source>
where
    Desk<S>: Logged,
{
    pub(crate) passes: Vec<Pass<Desk<S>>>,
    pub(crate) number: u32,
}
