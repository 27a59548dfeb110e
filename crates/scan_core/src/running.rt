//! How a command begins, and how its unit runs on.
ghost use Rattle.std.specs.Prelude.{◌≡◌, ◌<◌, ◌≤◌, length, slice_get, IfOk, OnErr};
ghost use Rattle.std.specs.List.{All};
ghost use Rattle.scan_model.specs.Fits.{JobFits, SettingsFit, CommandFits};
ghost use Rattle.reducer.specs.Answers.{content_of};
ghost use Rattle.unit_steps.specs.UnitView.{IsReady, IsAsking, Runs, given, Spent};
ghost use Rattle.unit_steps.specs.Work.{rank};
ghost use Rattle.unit_scan.specs.Told.{rank_limit};
ghost use Rattle.unit_laws.specs.Reduction.{Given};
ghost use Rattle.scan_core.specs.Running.{IsFirstSeat, RunsOnTo};

use crate::reading::Reading;
use crate::seat::Seat;
use reducer::Answer;
use scan_model::{Command, Items, Job, NoMemory, Settings};
use std::alloc::Global;
use unit_scan::{Turn, Unit};

/// The first seat of a worker that drew this number. `Err` is want of memory, for a command's unit.
pub(crate) fn first_seat<'a, R: Reading>(
    alloc: Global,
    jobs: &'a Items<Job>,
    settings: &'a Settings,
    number: u32,
) -> Result<Seat<'a, R>, NoMemory>
    requires jobs { All (λ job. JobFits job) jobs.now }
    requires settings { SettingsFit settings.now }
    ensures first { IfOk result (IsFirstSeat settings.now number (slice_get jobs.now number)) }
    ensures job { OnErr result (number < length jobs.now) }
{
    let jobs = jobs.as_slice();
    if number as usize >= jobs.len() {
        return Ok(Seat::Over);
    }
    match &jobs[number as usize] {
        Job::Refused(fault) => Ok(Seat::Refused(number, *fault)),
        Job::Run(command) => begin(alloc, command, settings, number),
    }
}

// A unit for the command, which runs to its first path.
fn begin<'a, R: Reading>(
    alloc: Global,
    command: &'a Command,
    settings: &'a Settings,
    number: u32,
) -> Result<Seat<'a, R>, NoMemory>
    requires command { CommandFits command.now }
    requires settings { SettingsFit settings.now }
    ensures { IfOk result (IsFirstSeat settings.now number (Some (Job.Run command.now))) }
{
    let unit = Unit::start(alloc, command, settings)?;
    run_on(alloc, number, unit)
}

/// The unit runs to its next path, or its end. `Err` is want of memory.
pub(crate) fn run_on<'a, R: Reading>(
    alloc: Global,
    number: u32,
    unit: Unit<'a>,
) -> Result<Seat<'a, R>, NoMemory>
    requires ready { IsReady unit.phase }
    requires memory { unit.phase ≡ Spent → ⊥ }
    ensures { IfOk result (RunsOnTo number unit.entry (rank unit.entry.work)) }
{
    let mut unit = unit;
    match unit.next(alloc)? {
        Turn::Ask => Ok(Seat::Looks(number, unit)),
        Turn::Done => Ok(Seat::Ends(number, unit)),
    }
}

/// The unit is told this of its path, and runs on. `Err` is want of memory.
pub(crate) fn go_on<'a, R: Reading>(
    alloc: Global,
    number: u32,
    unit: Unit<'a>,
    answer: Result<Answer, NoMemory>,
) -> Result<Seat<'a, R>, NoMemory>
    requires { IsAsking unit.phase }
    ensures { (told : Given) → IfOk answer (λ answer. content_of answer ≡ told) → IfOk result (RunsOnTo number (given unit.entry told) (rank unit.entry.work)) }
{
    let mut unit = unit;
    unit.give(answer?);
    run_on(alloc, number, unit)
}
