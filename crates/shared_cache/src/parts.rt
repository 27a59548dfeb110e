//! The locks of a cache while it is made and while it is closed, with the passes of each worker.
ghost use Rattle.std.specs.Prelude.{◌≡◌, ◌<◌, ◌≤◌, ◌+◌, ◌++◌, [], ◌∷◌, List, length, map, reverse, All, OnOk, IfErr, vec_capacity};
ghost use Rattle.turn_lock.specs.Passes.{first_log, pass_count, lock_fixed};
ghost use Rattle.cache_desk.specs.Desk.{log_of, fixed_of};
ghost use Rattle.shard_cache.specs.Rows.{ShardView, all_origins};
ghost use Rattle.shared_cache.specs.Shared.{second, locks_fixed};
ghost use Rattle.shared_cache.specs.Hands.{HaveOneMore, HavePlaces, HaveLast, AreParts, AreMade};
ghost use Rattle.shared_cache.specs.Closing.{ClosesLast, AreClosed};

use crate::Passes;
use cache_desk::Desk;
use file_source::Source;
use scan_model::Items;
use shard_cache::Shard;
use std::alloc::Global;
use turn_lock::{Logged, Pass, TurnLock};

/// The most workers, and so the most passes of a lock.
const MOST_WORKERS: usize = 64;

/// Locks, a room for each lock's passes, and each worker's passes.
pub(crate) struct Parts<S: Source>
where
    Desk<S>: Logged,
{
    pub(crate) locks: Vec<TurnLock<Desk<S>>>,
    pub(crate) rooms: Vec<Vec<Pass<Desk<S>>>>,
    pub(crate) hands: Vec<Passes<S>>,
}

// Gives each worker the pass of its number. It takes no memory.
fn deal<S: Source>(mut row: Vec<Pass<Desk<S>>>, hands: &mut [Passes<S>])
    requires count { length row.items ≡ length hands.old }
    requires places { All (λ hand. length hand.passes.items < vec_capacity hand.passes) hands.old }
    ensures { HaveOneMore hands.old row.items hands.new }
{
    while let Some(pass) = row.pop() {
        let number = row.len();
        hands[number].passes.push_reserved(pass);
    }
}

// Takes each worker's last pass. It takes no memory.
fn gather<S: Source>(hands: &mut [Passes<S>], mut room: Vec<Pass<Desk<S>>>) -> Vec<Pass<Desk<S>>>
    requires some { All (λ hand. 0 < length hand.passes.items) hands.old }
    requires room { (length room.items ≡ 0) × (length hands.old ≤ vec_capacity room) }
    ensures { HaveOneMore hands.new result.items hands.old }
{
    for number in 0..hands.len() {
        let Some(pass) = hands[number].passes.pop() else {
            unreachable!()
        };
        room.push_reserved(pass);
    }
    room
}

// Closes a lock with each worker's last pass. It takes no memory.
fn close_last<S: Source>(
    lock: TurnLock<Desk<S>>,
    room: Vec<Pass<Desk<S>>>,
    hands: &mut [Passes<S>],
) -> Shard<S>
    requires fresh { length (first_log (log_of S.given_outcome S.given_bytes) lock) ≡ 0 }
    requires count { pass_count lock ≡ length hands.old }
    requires last { HaveLast lock hands.old }
    requires room { (length room.items ≡ 0) × (length hands.old ≤ vec_capacity room) }
    ensures { ClosesLast S.given_path S.given_outcome S.given_bytes S.given_origin (lock_fixed fixed_of lock) hands.old hands.new result }
{
    let row = gather(hands, room);
    lock.close(Items::of_vec(row)).into_shard()
}

impl<S: Source> Parts<S> {
    /// Makes one lock more, and deals its passes. `Err` is want of memory: it hands the state back and changes nothing.
    pub(crate) fn add(&mut self, alloc: Global, desk: Desk<S>, workers: u32) -> Result<(), Desk<S>>
        requires workers { (0 < workers) × (workers ≤ 64) }
        requires fresh { desk.events ≡ [] }
        requires number { desk.number ≡ length self.old.locks.items }
        requires places { (length self.old.locks.items < 16) × HavePlaces self.old.locks self.old.rooms self.old.hands.items }
        requires made { AreMade (log_of S.given_outcome S.given_bytes) fixed_of workers self.old.locks.items self.old.rooms.items self.old.hands.items }
        ensures made { OnOk result (AreMade (log_of S.given_outcome S.given_bytes) fixed_of workers self.new.locks.items self.new.rooms.items self.new.hands.items) }
        ensures places { OnOk result (HavePlaces self.new.locks self.new.rooms self.new.hands.items) }
        ensures fixed { OnOk result (locks_fixed fixed_of self.new.locks.items ≡ locks_fixed fixed_of self.old.locks.items ++ fixed_of desk ∷ []) }
        ensures err { IfErr result (λ back. (back ≡ desk) × (self.new ≡ self.old)) }
    {
        let Ok(room) = Vec::with_capacity(alloc, MOST_WORKERS) else {
            return Err(desk);
        };
        let (lock, row) = TurnLock::new(alloc, desk, workers)?;
        deal(row.into_vec(), self.hands.as_mut_slice());
        self.locks.push_reserved(lock);
        self.rooms.push_reserved(room);
        Ok(())
    }

    /// Closes the locks, and adds their shards before the others, which come in reverse order. It takes no memory.
    pub(crate) fn close(self, mut shards: Vec<Shard<S>>) -> Vec<Shard<S>>
        requires parts { AreParts (log_of S.given_outcome S.given_bytes) fixed_of self.locks.items self.rooms.items self.hands.items }
        requires places { length shards.items + length self.locks.items ≤ vec_capacity shards }
        ensures { (closed : List (ShardView S S.Opener S.Given)) × (result.items ≡ closed ++ reverse shards.items) × AreClosed S.given_path S.given_outcome S.given_bytes S.given_origin self.hands.items 0 closed × (all_origins closed ≡ map second (locks_fixed fixed_of self.locks.items)) }
    {
        let Parts {
            mut locks,
            mut rooms,
            mut hands,
        } = self;
        while let Some(lock) = locks.pop() {
            let Some(room) = rooms.pop() else {
                unreachable!()
            };
            shards.push_reserved(close_last(lock, room, hands.as_mut_slice()));
        }
        locks.destroy_empty();
        shards.reverse();
        shards
    }
}
