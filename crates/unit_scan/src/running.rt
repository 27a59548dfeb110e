//! The steps of a unit, one after another.
ghost use Rattle.std.specs.Prelude.{◌≡◌, [], IfOk};
ghost use Rattle.unit_scan.specs.Parts.{setup_of, told};
ghost use Rattle.unit_scan.specs.Standing.{Holds, Running, Standing, Follows, Arrives, IsMoving, moves, stage_order};

use crate::answers::on_answer;
use crate::begun::begin_next;
use crate::conditions::go_on_testing;
use crate::lines::in_file;
use crate::parts::{Run, Scan};
use crate::searches::seek;
use crate::stage::{FirstFile, Lookup, Stage};
use scan_model::NoMemory;

fn moves(stage: &Stage) -> bool
    ensures { result ≡ moves stage.now }
{
    !matches!(
        stage,
        Stage::Asks(_, _) | Stage::Recorded | Stage::Over(_) | Stage::Spent
    )
}

// The unit runs: the file at the top goes on, or what isn't begun begins.
fn go_on(scan: &Scan<'_>, run: &mut Run) -> Result<Stage, NoMemory>
    requires { Running (setup_of scan.now) run.old }
    ensures same { run.new.log.items ≡ run.old.log.items }
    ensures next { IfOk result (λ stage. Follows (setup_of scan.now) run.old 2 run.new stage) }
{
    if run.stack.is_empty() {
        begin_next(scan, run)
    } else {
        in_file(scan, run)
    }
}

fn step(scan: &Scan<'_>, run: &mut Run, stage: Stage) -> Result<Stage, NoMemory>
    requires holds { Holds (setup_of scan.now) run.old stage }
    requires moves { IsMoving stage }
    ensures same { run.new.log.items ≡ run.old.log.items }
    ensures next { IfOk result (λ next. Follows (setup_of scan.now) run.old (stage_order stage) run.new next) }
{
    match stage {
        Stage::Begins => Ok(Stage::Seeks(Lookup::First(FirstFile::Predefines))),
        Stage::Runs => go_on(scan, run),
        Stage::Seeks(lookup) => seek(scan, run, lookup),
        Stage::Tests(testing) => go_on_testing(scan, run, testing),
        Stage::Answered(lookup) => on_answer(scan, run, lookup),
        _ => unreachable!(),
    }
}

/// All steps up to the next path that is asked, or to the end. `Err` is want of memory.
pub(crate) fn run_on(scan: &Scan<'_>, run: &mut Run, stage: Stage) -> Result<Stage, NoMemory>
    requires holds { Holds (setup_of scan.now) run.old stage }
    requires moves { IsMoving stage }
    ensures same { run.new.log.items ≡ run.old.log.items }
    ensures arrives { IfOk result (λ next. Arrives (setup_of scan.now) run.old run.new next) }
{
    let mut stage = stage;
    'steps: loop {
        stage = step(scan, run, stage)?;
        if !moves(&stage) {
            return Ok(stage);
        }
    }
}
