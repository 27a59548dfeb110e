//! The ends of a unit that stops at a fault.
ghost use Rattle.std.specs.Prelude.{◌≡◌, ◌<◌, ◌∷◌, reverse, drop, length, IfOk};
ghost use Rattle.std.specs.List.{AllByRecursion};
ghost use Rattle.scan_model.specs.State.{Setup};
ghost use Rattle.unit_steps.specs.Logs.{path_at};
ghost use Rattle.unit_steps.specs.Stack.{current};
ghost use Rattle.unit_scan.specs.declared.parts.Run.{Run};
ghost use Rattle.unit_scan.specs.Parts.{IsFile, answers_of, frames_of, told, setup_of};
ghost use Rattle.unit_scan.specs.Standing.{blamed, stopped, CanBlame};

use crate::parts::{Answered, OpenFile, Run, Scan};
use crate::stage::Blame;
use scan_model::{Bytes, Fault, FaultKind, NoMemory, PathText, Place, UnitEnd};

/// The path of the answer at this place, as one that is normal.
pub(crate) fn whole_path_at(log: &[Answered], place: usize) -> &PathText
    requires { place < length log.now }
    ensures { result.now ≡ path_at (answers_of log.now) place }
{
    &log[place].path
}

/// The path of the answer at this place.
pub(crate) fn path_at(log: &[Answered], place: usize) -> &[u8]
    requires { place < length log.now }
    ensures { result.now ≡ path_at (answers_of log.now) place }
{
    whole_path_at(log, place).as_slice()
}

/// The file at the top of the stack.
pub(crate) fn top(stack: &[OpenFile]) -> &OpenFile
    requires { 0 < length stack.now }
    ensures { reverse stack.now ≡ result.now ∷ drop 1 (reverse stack.now) }
{
    &stack[stack.len() - 1]
}

// The path of the file that the unit is in; outside all files it is that of the command line.
pub(crate) fn current_path<'a>(log: &'a [Answered], stack: &[OpenFile]) -> &'a [u8]
    requires { AllByRecursion (IsFile (answers_of log.now)) stack.now }
    ensures { result.now ≡ (current (frames_of (answers_of log.now) stack.now)).path }
{
    if stack.is_empty() {
        b"<command line>".as_slice()
    } else {
        path_at(log, top(stack).answer)
    }
}

fn blamed_path(run: &Run, blame: Blame) -> &[u8]
    requires files { AllByRecursion (IsFile (told run.now)) run.now.stack.items }
    requires some { CanBlame run.now blame }
    ensures { (setup : Setup) → result.now ≡ (blamed setup run.now blame).path }
{
    match blame {
        Blame::Alone => path_at(&run.log, run.log.len() - 1),
        Blame::Here(_) => current_path(&run.log, &run.stack),
    }
}

fn blamed_line(blame: Blame) -> u32
    ensures { (setup : Setup) (run : Run) → result ≡ (blamed setup run blame).line }
{
    match blame {
        Blame::Alone => 0,
        Blame::Here(line) => line,
    }
}

/// The end of a unit that stops at this fault. `Err` is want of memory.
pub(crate) fn fault(
    scan: &Scan<'_>,
    run: &Run,
    kind: FaultKind,
    blame: Blame,
) -> Result<UnitEnd, NoMemory>
    requires files { AllByRecursion (IsFile (told run.now)) run.now.stack.items }
    requires some { CanBlame run.now blame }
    ensures { IfOk result (λ end. end ≡ stopped kind (blamed (setup_of scan.now) run.now blame)) }
{
    let path = Bytes::copy(scan.alloc, blamed_path(run, blame))?;
    let line = blamed_line(blame);
    Ok(UnitEnd::Stopped(Fault {
        kind,
        place: Place { path, line },
    }))
}
