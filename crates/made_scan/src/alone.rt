ghost use Rattle.std.specs.Prelude.{◌≡◌, ◌<◌, ◌≤◌, ◌^◌, IfOk};
ghost use Rattle.scan_model.specs.Fits.{SettingsFit};
ghost use Rattle.scheduler.specs.Order.{HaveMemory};
ghost use Rattle.big_gen.specs.MadeTexts.{made_files};
ghost use Rattle.made_scan.specs.MadeScans.{AreMadeEnds, IsPathCount};

use crate::MadeScan;
use crate::jobs::made_jobs;
use crate::store::made_store;
use file_source::Listed;
use scan_model::{NoMemory, Settings};
use scheduler::run_schedule;
use std::alloc::Global;
use std::marker::Brand;

/// Scans the made tree of so many units, up to 4,096, by so many workers, from 1 to 64, on the schedule that begins with
/// this number. It waits for nobody. `Err` is want of memory for the scan as a whole.
pub fn scan_made_alone(
    alloc: Global,
    units: u32,
    settings: &Settings,
    workers: u32,
    number: u32,
) -> Result<MadeScan, NoMemory>
    requires few_units { units ≤ 4096 }
    requires some { 1 ≤ workers }
    requires few_workers { workers ≤ 64 }
    requires number { number < 2 ^ 31 }
    requires settings { SettingsFit settings.now }

    // Each unit has its end over the made tree, or memory was wanting for it.
    ensures ends { IfOk result (λ scan. AreMadeEnds units settings.now scan.ends) }

    // Unless memory was wanting for some unit, the paths are those that the units look at, each counted once.
    ensures paths { IfOk result (λ scan. HaveMemory scan.ends → IsPathCount units settings.now scan.paths) }
{
    scan::<Brand>(alloc, units, settings, workers, number)
}

fn scan<J: Listed + Send + Sync>(
    alloc: Global,
    units: u32,
    settings: &Settings,
    workers: u32,
    number: u32,
) -> Result<MadeScan, NoMemory>
    requires files { J.files ≡ made_files units }
    requires few_units { units ≤ 4096 }
    requires some { 1 ≤ workers }
    requires few_workers { workers ≤ 64 }
    requires number { number < 2 ^ 31 }
    requires settings { SettingsFit settings.now }
    ensures ends { IfOk result (λ scan. AreMadeEnds units settings.now scan.ends) }
    ensures paths { IfOk result (λ scan. HaveMemory scan.ends → IsPathCount units settings.now scan.paths) }
{
    let jobs = made_jobs(alloc, units)?;
    let mut store = made_store::<J>(alloc, units)?;
    let ends = run_schedule(alloc, &jobs, settings, workers, number, &mut store)?;
    Ok(MadeScan {
        ends,
        paths: store.paths(),
    })
}
