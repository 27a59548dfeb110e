//! How a cache and its passes are made.
ghost use Rattle.std.specs.Prelude.{◌≡◌, ◌<◌, ◌≤◌, [], length, map, All, IfOk, IfErr, vec_capacity};
ghost use Rattle.cache_desk.specs.Desk.{log_of, fixed_of};
ghost use Rattle.shard_cache.specs.Rows.{all_origins};
ghost use Rattle.shard_cache.specs.StoreMap.{IsUntouched};
ghost use Rattle.shared_cache.specs.Shared.{second, locks_fixed, HavePasses};
ghost use Rattle.shared_cache.specs.Opening.{AreDealt};
ghost use Rattle.shared_cache.specs.Hands.{HavePlaces, AreMade};

use crate::cache::Bell;
use crate::parts::Parts;
use crate::room::Room;
use crate::{Cache, Passes};
use cache_desk::Desk;
use file_source::Source;
use scan_model::{Items, NoMemory};
use shard_cache::Store;
use std::alloc::Global;
use std::sync::{Condvar, Mutex};

/// The number of shards.
const SHARDS: usize = 16;

// A bell for each shard.
fn bells(alloc: Global) -> Result<Vec<Bell>, NoMemory>
    ensures { IfOk result (λ bells. length bells.items ≡ 16) }
{
    let mut bells = Vec::with_capacity(alloc, SHARDS)?;
    while bells.len() < SHARDS {
        bells.push_reserved(Bell {
            count: Mutex::new(0),
            rung: Condvar::new(),
        });
    }
    Ok(bells)
}

// For each worker an empty list with places for its passes.
fn hands<S: Source>(alloc: Global, workers: u32) -> Result<Vec<Passes<S>>, NoMemory>
    ensures count { IfOk result (λ hands. length hands.items ≡ workers) }
    ensures dealt { IfOk result (λ hands. AreDealt [] hands.items) }
    ensures places { IfOk result (λ hands. All (λ hand. 16 ≤ vec_capacity hand.passes) hands.items) }
{
    let mut hands = Vec::with_capacity(alloc, workers as usize)?;
    for number in 0..workers {
        let passes = Vec::with_capacity(alloc, SHARDS)?;
        hands.push_reserved(Passes { passes, number });
    }
    Ok(hands)
}

// No lock yet, and places for all.
fn no_locks<S: Source>(alloc: Global, workers: u32) -> Result<Parts<S>, NoMemory>
    requires { workers ≤ 64 }
    ensures none { IfOk result (λ parts. length parts.locks.items ≡ 0) }
    ensures places { IfOk result (λ parts. HavePlaces parts.locks parts.rooms parts.hands.items) }
    ensures made { IfOk result (λ parts. AreMade (log_of S.given_outcome S.given_bytes) fixed_of workers parts.locks.items parts.rooms.items parts.hands.items) }
{
    let hands = hands(alloc, workers)?;
    let rooms = Vec::with_capacity(alloc, SHARDS)?;
    let locks = Vec::with_capacity(alloc, SHARDS)?;
    Ok(Parts {
        locks,
        rooms,
        hands,
    })
}

impl<S: Source> Cache<S> {
    /// The cache over a store's shards, and a worker's passes for each of 1 to 64 workers, with the numbers from 0 on.
    /// `Err` is want of memory, and hands the store back.
    pub fn new(
        alloc: Global,
        store: Store<S>,
        workers: u32,
    ) -> Result<(Cache<S>, Items<Passes<S>>), Store<S>>
        requires workers { (0 < workers) × (workers ≤ 64) }
        requires fresh { IsUntouched store }
        ensures count { IfOk result (λ r. (length r.1 ≡ workers) × HavePasses r.0.locks.items workers) }
        ensures passes { IfOk result (λ r. AreDealt r.0.locks.items r.1) }
        ensures origins { IfOk result (λ r. map second (locks_fixed fixed_of r.0.locks.items) ≡ all_origins store) }
        ensures err { IfErr result (λ back. back ≡ store) }
    {
        let Ok(bells) = bells(alloc) else {
            return Err(store);
        };
        let Ok(mut parts) = no_locks(alloc, workers) else {
            return Err(store);
        };
        let mut left = store.into_shards();
        left.reverse();
        while let Some(shard) = left.pop() {
            let number = parts.locks.len() as u32;
            let desk = Desk::new(alloc, number, shard.into_source());
            if let Err(desk) = parts.add(alloc, desk, workers) {
                left.push_reserved(desk.into_shard());
                return Err(Store::of_shards(parts.close(left)));
            }
        }
        let Parts {
            locks,
            rooms,
            hands,
        } = parts;
        let cache = Cache {
            locks,
            bells,
            room: Mutex::new(Room {
                rows: rooms,
                shards: left,
            }),
        };
        Ok((cache, Items::of_vec(hands)))
    }
}
