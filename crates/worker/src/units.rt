//! How a job comes to its end.
ghost use Rattle.std.specs.Prelude.{◌≡◌};
ghost use Rattle.scan_model.specs.Fits.{CommandFits, JobFits, SettingsFit};
ghost use Rattle.shared_cache.specs.Callers.{number_of, seen_by, IsHandOf};
ghost use Rattle.worker.specs.Seen.{IsMemoOf};
ghost use Rattle.worker.specs.Claims.{GoesOn};
ghost use Rattle.worker.specs.Work.{IsEndOver, IsLooked};

use crate::asking::ask;
use answer_memo::Memo;
use file_source::Source;
use scan_model::{Command, Job, NoMemory, Settings, UnitEnd};
use shared_cache::{Cache, Passes};
use std::alloc::Global;
use std::sync::Wait;
use unit_scan::{Turn, Unit};

/// Runs the job to its end over the cache. Want of memory is an end too.
pub(crate) fn end_of_job<Q: Wait, S: Source>(
    rt: &Q,
    alloc: Global,
    cache: &Cache<S>,
    passes: &mut Passes<S>,
    memo: &mut Memo,
    job: &Job,
    settings: &Settings,
) -> UnitEnd
    requires own { IsHandOf cache.now passes.old }
    requires memo { IsMemoOf (seen_by passes.old) memo.old }
    requires job { JobFits job.now }
    requires settings { SettingsFit settings.now }
    ensures own { IsHandOf cache.now passes.new × (number_of passes.new ≡ number_of passes.old) }
    ensures memo { IsMemoOf (seen_by passes.new) memo.new }
    ensures end { IsEndOver settings.now job.now (seen_by passes.new) result }
    ensures goes { GoesOn (number_of passes.old) (IsLooked settings.now job.now (seen_by passes.new)) (seen_by passes.old) (seen_by passes.new) }
{
    match job {
        Job::Run(command) => run_unit(rt, alloc, cache, passes, memo, command, settings),
        Job::Refused(fault) => UnitEnd::Refused(*fault),
    }
}

fn run_unit<Q: Wait, S: Source>(
    rt: &Q,
    alloc: Global,
    cache: &Cache<S>,
    passes: &mut Passes<S>,
    memo: &mut Memo,
    command: &Command,
    settings: &Settings,
) -> UnitEnd
    requires own { IsHandOf cache.now passes.old }
    requires memo { IsMemoOf (seen_by passes.old) memo.old }
    requires command { CommandFits command.now }
    requires settings { SettingsFit settings.now }
    ensures own { IsHandOf cache.now passes.new × (number_of passes.new ≡ number_of passes.old) }
    ensures memo { IsMemoOf (seen_by passes.new) memo.new }
    ensures end { IsEndOver settings.now (Job.Run command.now) (seen_by passes.new) result }
    ensures goes { GoesOn (number_of passes.old) (IsLooked settings.now (Job.Run command.now) (seen_by passes.new)) (seen_by passes.old) (seen_by passes.new) }
{
    let Ok(mut unit) = Unit::start(alloc, command, settings) else {
        return UnitEnd::NoMemory;
    };
    'turns: loop {
        match unit.next(alloc) {
            Ok(Turn::Ask) => match ask(rt, alloc, cache, passes, memo, unit.asked()) {
                Ok(answer) => unit.give(answer),
                Err(NoMemory) => return UnitEnd::NoMemory,
            },
            Ok(Turn::Done) => return unit.finish(),
            Err(NoMemory) => return UnitEnd::NoMemory,
        }
    }
}
