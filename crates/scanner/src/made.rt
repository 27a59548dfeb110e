//! The scan of a made tree in place of a database's commands.
ghost use Rattle.std.specs.Prelude.{◌<◌, ◌≤◌, ◌-◌, ◌^◌, IfOk};
ghost use Rattle.scheduler.specs.Order.{HaveMemory};
ghost use Rattle.made_scan.specs.MadeScans.{AreMadeEnds, IsPathCount};
ghost use Rattle.scanner.specs.Verdict.{MadePlanFits};
ghost use Rattle.scanner.specs.Statuses.{number};
ghost use Rattle.scanner.specs.Sinks.{put_to};
ghost use Rattle.scanner.specs.Run.{IsSummedUnlessNoMemory};

use crate::printing::{print_summary, tell_no_memory};
use crate::status::Status;
use crate::verdict::MadePlan;
use file_source::Sink;
use made_scan::{MadeScan, scan_made, scan_made_alone};
use scan_model::NoMemory;
use std::alloc::Global;
use std::sync::Wait;
use std::thread::Threads;

/// Scans the made tree on this thread, on its plan's schedule, and prints the summary.
pub(crate) fn make_alone<K: Sink, E: Sink>(
    alloc: Global,
    plan: &MadePlan,
    out: &mut K,
    err: &mut E,
) -> Status
    requires fits { MadePlanFits plan.now }
    requires out_count { K.faults out.old < 2 ^ 64 - 1 }
    requires err_count { E.faults err.old < 2 ^ 64 - 1 }
    ensures { IsSummedUnlessNoMemory plan.now
        (put_to K.held K.faults K.puts out.old out.new) (put_to E.held E.faults E.puts err.old err.new) (number result) }
{
    let manner = &plan.manner;
    let scan = scan_made_alone(
        alloc,
        plan.units,
        &manner.settings,
        manner.workers,
        manner.schedule,
    );
    print_scan(alloc, plan, scan, out, err)
}

/// The same by the plan's workers, each on a thread of its own.
pub(crate) fn make_on_threads<Q: Threads + Wait + Sync, K: Sink, E: Sink>(
    rt: &Q,
    alloc: Global,
    plan: &MadePlan,
    out: &mut K,
    err: &mut E,
) -> Status
    requires fits { MadePlanFits plan.now }
    requires out_count { K.faults out.old < 2 ^ 64 - 1 }
    requires err_count { E.faults err.old < 2 ^ 64 - 1 }
    ensures { IsSummedUnlessNoMemory plan.now
        (put_to K.held K.faults K.puts out.old out.new) (put_to E.held E.faults E.puts err.old err.new) (number result) }
{
    let manner = &plan.manner;
    let scan = scan_made(rt, alloc, plan.units, &manner.settings, manner.workers);
    print_scan(alloc, plan, scan, out, err)
}

// Prints the summary of a scan of the plan's tree.
fn print_scan<K: Sink, E: Sink>(
    alloc: Global,
    plan: &MadePlan,
    scan: Result<MadeScan, NoMemory>,
    out: &mut K,
    err: &mut E,
) -> Status
    requires units { plan.now.units ≤ 4096 }
    requires ends { IfOk scan (λ s. AreMadeEnds plan.now.units plan.now.manner.settings s.ends) }
    requires paths { IfOk scan (λ s. HaveMemory s.ends → IsPathCount plan.now.units plan.now.manner.settings s.paths) }
    requires out_count { K.faults out.old < 2 ^ 64 - 1 }
    requires err_count { E.faults err.old < 2 ^ 64 - 1 }
    ensures { IsSummedUnlessNoMemory plan.now
        (put_to K.held K.faults K.puts out.old out.new) (put_to E.held E.faults E.puts err.old err.new) (number result) }
{
    match scan {
        Ok(scan) => print_summary(alloc, &scan.ends, scan.paths, out, err),
        Err(NoMemory) => tell_no_memory(err),
    }
}
