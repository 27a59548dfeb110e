ghost use Rattle.std.specs.Prelude.{◌≡◌, ◌<◌, ◌≤◌, ◌^◌, All, IfOk, OnOk, length};
ghost use Rattle.scan_model.specs.Fits.{JobFits, SettingsFit};
ghost use Rattle.shard_cache.specs.Rows.{all_rows, all_origins};
ghost use Rattle.shard_cache.specs.StoreMap.{file_map, HaveRows, IsOneMap};
ghost use Rattle.shard_cache.specs.StoreRun.{IsExtended};
ghost use Rattle.shard_cache.specs.Ends.{AreEnds};
ghost use Rattle.scheduler.specs.Asks.{AsksForLooks};
ghost use Rattle.scheduler.specs.Order.{IsInOrder, HaveMemory};

use crate::ends::gathered;
use crate::movers::chosen_mover;
use crate::moving::step;
use crate::number::next_number;
use file_source::Source;
use scan_core::Core;
use scan_model::{Items, Job, NoMemory, Settings, UnitEnd};
use shard_cache::{KeptRow, Store};
use std::alloc::Global;

/// Scans the jobs by so many workers, from 1 to 64, on the schedule that begins with this number. Each path that they look
/// at is read once, and gets its row; where the store has a row of it before, that row tells of the file, which isn't read.
/// There are at most 131,072 jobs. `Err` is want of memory for the run as a whole: for the ends, for a row, or for one more
/// owner of a row's lines. Where memory is wanting for one job alone, that is its end.
pub fn run_schedule<S: Source>(
    alloc: Global,
    jobs: &Items<Job>,
    settings: &Settings,
    workers: u32,
    number: u32,
    store: &mut Store<S>,
) -> Result<Items<UnitEnd>, NoMemory>
    requires some { 1 ≤ workers }
    requires few_workers { workers ≤ 64 }
    requires few_jobs { length jobs.now ≤ 131072 }
    requires number { number < 2 ^ 31 }
    requires jobs { All (λ job. JobFits job) jobs.now }
    requires settings { SettingsFit settings.now }

    // Each job has its end over the one map of all rows, those that were there before among them.
    ensures ends { IfOk result (λ ends. AreEnds (file_map S.given_outcome S.given_bytes (all_rows store.new)) settings.now jobs.now ends) }

    // No path that had a row was asked for, and none twice; each new row is of a path that was, and has what was given for it.
    ensures extended { IsExtended S.given_path S.given_origin store.old store.new }

    // Each path that was asked for has its row.
    ensures have_rows { OnOk result (HaveRows store.old → HaveRows store.new) }

    // Unless memory was wanting for some job, the new rows stand in the order in which the schedule publishes them.
    ensures order { IfOk result (λ ends. HaveMemory ends →
        IsInOrder (file_map S.given_outcome S.given_bytes (all_rows store.new)) jobs.now settings.now workers number store.old store.new) }

    // If the rows were one map of what the reads gave, and no path was without its row, they are one map.
    ensures one_map { HaveRows store.old → IsOneMap S.given_path S.given_origin store.old → IsOneMap S.given_path S.given_origin store.new }

    // Only what the jobs look at was asked for.
    ensures looked { AsksForLooks S.given_path S.given_origin (file_map S.given_outcome S.given_bytes (all_rows store.new)) jobs.now settings.now store.old store.new }

    // The sources are the same.
    ensures origins { all_origins store.new ≡ all_origins store.old }
{
    let mut core = Core::new(alloc, jobs, settings, workers)?;
    let mut held = no_rows(alloc, workers)?;
    let mut movers = Vec::with_capacity(alloc, workers as usize)?;
    let mut number = number;
    'steps: loop {
        number = next_number(number);
        let Some(worker) = chosen_mover(&core, workers, number, &mut movers) else {
            break;
        };
        step(alloc, &mut core, worker, &mut held, store)?;
    }
    gathered(alloc, core.finish())
}

// A place for each worker, without a row.
fn no_rows<S: Source>(alloc: Global, workers: u32) -> Result<Vec<Option<KeptRow<S>>>, NoMemory>
    ensures { IfOk result (λ places. length places.items ≡ workers) }
{
    let mut places = Vec::with_capacity(alloc, workers as usize)?;
    let mut number = 0;
    'places: while number < workers {
        places.push_reserved(None);
        number += 1;
    }
    Ok(places)
}
