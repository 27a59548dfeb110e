//! A unit that begins.
ghost use Rattle.std.specs.Prelude.{◌≡◌, IfOk};
ghost use Rattle.scan_model.specs.Fits.{CommandFits, SettingsFit};
ghost use Rattle.unit_scan.specs.Parts.{setup_of};
ghost use Rattle.unit_scan.specs.Standing.{Starts, IsFirstState, IsFirstRun};

use crate::parts::{Left, Run, Scan};
use crate::stage::Stage;
use line_actions::UnitState;
use scan_model::NoMemory;
use std::alloc::Global;

// The parts of a unit that has looked at nothing, with this state.
fn first_parts(alloc: Global, state: UnitState, candidates: usize) -> Run
    ensures { IsFirstRun state candidates result }
{
    Run {
        log: Vec::new(alloc),
        stack: Vec::new(alloc),
        left: Left::Settings(0),
        state,
        entered: 0,
        tests: 0,
        candidates,
    }
}

fn first_state(scan: &Scan<'_>) -> Result<UnitState, NoMemory>
    ensures { IfOk result (IsFirstState (setup_of scan.now)) }
{
    UnitState::new(
        scan.alloc,
        scan.command.dialect,
        &scan.command.output,
        &scan.command.source,
    )
}

/// A unit that has looked at nothing yet. `Err` is want of memory.
pub(crate) fn first_run(scan: &Scan<'_>) -> Result<(Run, Stage), NoMemory>
    requires command { CommandFits scan.now.command.now }
    requires settings { SettingsFit scan.now.settings.now }
    ensures { IfOk result (Starts (setup_of scan.now)) }
{
    let state = first_state(scan)?;
    if scan.settings.predefines.is_none() {
        Ok((first_parts(scan.alloc, state, 0), Stage::Runs))
    } else {
        Ok((first_parts(scan.alloc, state, 1), Stage::Begins))
    }
}
