ghost use Rattle.std.specs.Prelude.{◌≡◌, ◌<◌, ◌≤◌, All, IfOk, length, map};
ghost use Rattle.scan_model.specs.Fits.{JobFits, SettingsFit};
ghost use Rattle.shard_cache.specs.Rows.{all_rows, all_asked, all_origins};
ghost use Rattle.shard_cache.specs.StoreMap.{file_map, HaveRows, IsOneMap, IsUntouched};
ghost use Rattle.shard_cache.specs.Ends.{AreEnds, IsLookedAt};
ghost use Rattle.cache_desk.specs.Desk.{fixed_of};
ghost use Rattle.shared_cache.specs.Shared.{second, locks_fixed, HavePasses};
ghost use Rattle.shared_cache.specs.Opening.{AreDealt};
ghost use Rattle.workers.specs.Rooms.{AreRooms};

use crate::crew::Crew;
use crate::gathering::{in_order, place_all};
use crate::rooms::{Rooms, take_rooms};
use crate::working::work_together;
use file_source::Source;
use scan_model::{Items, Job, NoMemory, Settings, UnitEnd};
use shard_cache::Store;
use shared_cache::{Cache, Passes};
use std::alloc::Global;
use std::sync::Wait;
use std::thread::Threads;
use worker::Hand;

/// What a scan leaves.
pub struct Scanned<S: Source> {
    /// One end for each job, in order. `Err` is want of memory for the scan as a whole.
    pub ends: Result<Items<UnitEnd>, NoMemory>,
    pub store: Store<S>,
}

/// Scans the jobs by so many workers, from 1 to 64, on threads of their own, and reads each path that they look at once.
/// There are at most 131,072 jobs. Where memory is wanting for one job alone, that is its end. The store is exact also
/// where memory was wanting.
pub fn scan_all<Q: Threads + Wait + Sync, S: Source>(
    rt: &Q,
    alloc: Global,
    jobs: &Items<Job>,
    settings: &Settings,
    workers: u32,
    store: Store<S>,
) -> Scanned<S>
    requires untouched { IsUntouched store }
    requires some { 1 ≤ workers }
    requires few_workers { workers ≤ 64 }
    requires few_jobs { length jobs.now ≤ 131072 }
    requires jobs { All (λ job. JobFits job) jobs.now }
    requires settings { SettingsFit settings.now }

    // Each job has its end over the one map of all rows.
    ensures ends { IfOk result.ends (λ ends. AreEnds (file_map S.given_outcome S.given_bytes (all_rows result.store)) settings.now jobs.now ends) }

    // Each path that was asked for has its row.
    ensures have_rows { HaveRows result.store }

    // No path was asked for twice, and the rows are one map of what the reads gave.
    ensures one_map { IsOneMap S.given_path S.given_origin result.store }

    // Only what the jobs look at was asked for.
    ensures looked { All (λ path. IsLookedAt (file_map S.given_outcome S.given_bytes (all_rows result.store)) settings.now jobs.now path) (all_asked result.store) }

    // The sources are the same.
    ensures origins { all_origins result.store ≡ all_origins store }
{
    let count = jobs.as_slice().len() as u32;
    let Ok((rooms, hands)) = take_rooms(alloc, count, workers) else {
        return Scanned {
            ends: Err(NoMemory),
            store,
        };
    };
    match Cache::new(alloc, store, workers) {
        Ok(opened) => scan_with(rt, alloc, jobs, settings, rooms, hands, opened),
        Err(store) => {
            hands.destroy_empty();
            Scanned {
                ends: Err(NoMemory),
                store,
            }
        }
    }
}

// Scans the jobs with all that was taken, and the cache that was opened, with its passes. It takes no memory but what the
// jobs take.
fn scan_with<Q: Threads + Wait + Sync, S: Source>(
    rt: &Q,
    alloc: Global,
    jobs: &Items<Job>,
    settings: &Settings,
    rooms: Rooms,
    hands: Vec<Hand<S>>,
    opened: (Cache<S>, Items<Passes<S>>),
) -> Scanned<S>
    requires some { 0 < length opened.1 }
    requires rooms { AreRooms (length jobs.now) (length opened.1) rooms hands }
    requires count { HavePasses opened.0.locks.items (length opened.1) }
    requires dealt { AreDealt opened.0.locks.items opened.1 }
    requires few { length jobs.now ≤ 131072 }
    requires jobs { All (λ job. JobFits job) jobs.now }
    requires settings { SettingsFit settings.now }
    ensures ends { IfOk result.ends (λ ends. AreEnds (file_map S.given_outcome S.given_bytes (all_rows result.store)) settings.now jobs.now ends) }
    ensures have_rows { HaveRows result.store }
    ensures one_map { IsOneMap S.given_path S.given_origin result.store }
    ensures looked { All (λ path. IsLookedAt (file_map S.given_outcome S.given_bytes (all_rows result.store)) settings.now jobs.now path) (all_asked result.store) }
    ensures origins { all_origins result.store ≡ map second (locks_fixed fixed_of opened.0.locks.items) }
{
    let (cache, passes) = opened;
    let Rooms {
        tickets,
        seats,
        shares,
        places,
        ends,
    } = rooms;
    let crew = Crew {
        seats: seats.into_vec(),
        passes: passes.into_vec(),
        shares,
        hands,
    };
    let crew = work_together(rt, alloc, &cache, &tickets, jobs, settings, crew);
    let Crew {
        seats,
        passes,
        shares,
        hands,
    } = crew;
    hands.destroy_empty();

    // Each job's number was drawn once, so that its end is in one of the shares.
    let _draws = tickets.close(Items::of_vec(seats));
    let places = place_all(places, shares);
    let store = cache.close(Items::of_vec(passes));
    Scanned {
        ends: Ok(in_order(places, ends)),
        store,
    }
}
