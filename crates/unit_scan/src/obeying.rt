//! What the action of a line asks the unit to do.
ghost use Rattle.std.specs.Prelude.{◌≡◌, IfOk};
ghost use Rattle.std.specs.List.{AllByRecursion};
ghost use Rattle.scan_model.specs.Paths.{folder};
ghost use Rattle.scan_model.specs.Stream.{fault_kind};
ghost use Rattle.unit_steps.specs.Stack.{current};
ghost use Rattle.unit_scan.specs.Parts.{IsFile, Sound, frames_of, present, setup_of, told};
ghost use Rattle.unit_scan.specs.Lookups.{HasTaken};
ghost use Rattle.unit_scan.specs.Standing.{Acted, FollowsLine};

use crate::faults::{fault, top, whole_path_at};
use crate::jumping::jump;
use crate::lines::lines_of;
use crate::parts::{Run, Scan};
use crate::searches::candidate_count;
use crate::stage::{Blame, Lookup, Name, Purpose, Stage, Testing};
use line_actions::{Action, Condition};
use path_search::folder;
use scan_model::{Bytes, FaultKind, Form, ModuleFault, NoMemory, PathText};

/// The fault of a module or import line.
fn fault_kind(fault: ModuleFault) -> FaultKind
    ensures { result ≡ fault_kind fault }
{
    match fault {
        ModuleFault::BadModuleLine => FaultKind::BadModuleLine,
        ModuleFault::SecondModule => FaultKind::SecondModule,
        ModuleFault::PartitionOutsideModule => FaultKind::PartitionOutsideModule,
        ModuleFault::HeaderUnit => FaultKind::HeaderUnit,
    }
}

/// The physical number of the line that was taken last.
pub(crate) fn taken_line(run: &Run) -> u32
    requires sound { AllByRecursion (IsFile (told run.now)) run.now.stack.items }
    requires taken { HasTaken run.now.stack.items }
    ensures { result ≡ (present (told run.now) run.now.stack.items).line }
{
    let file = top(&run.stack);
    match lines_of(&run.log, file.answer) {
        Some(lines) => lines.line(file.next - 1).line,
        None => 0,
    }
}

/// The folder of the file at the top. `Err` is want of memory.
pub(crate) fn current_folder(scan: &Scan<'_>, run: &Run) -> Result<PathText, NoMemory>
    requires sound { Sound (setup_of scan.now) run.now }
    requires taken { HasTaken run.now.stack.items }
    ensures { IfOk result (λ from. from ≡ folder (current (frames_of (told run.now) run.now.stack.items)).path) }
{
    let file = top(&run.stack);
    folder(scan.alloc, whole_path_at(&run.log, file.answer))
}

/// What is left to do after a line of the file at the top. `Err` is want of memory.
pub(crate) fn obey(scan: &Scan<'_>, run: &mut Run, action: Action) -> Result<Stage, NoMemory>
    requires { Acted (setup_of scan.now) run.old action }
    ensures same { run.new.log.items ≡ run.old.log.items }
    ensures next { IfOk result (λ stage. FollowsLine (setup_of scan.now) run.old run.new stage) }
{
    match action {
        Action::Goes | Action::Sent => Ok(Stage::Runs),
        Action::Skips => jump(scan, run),
        Action::Refused(refusal) => stop(scan, run, fault_kind(refusal)),
        Action::Stops(kind) => stop(scan, run, kind),
        Action::Includes(form, name) => include(scan, run, form, name),
        Action::Tests(condition) => ask_condition(scan, run, condition),
    }
}

// The line stops the unit.
fn stop(scan: &Scan<'_>, run: &mut Run, kind: FaultKind) -> Result<Stage, NoMemory>
    requires { Acted (setup_of scan.now) run.old (Action.Stops kind) }
    ensures same { run.new.log.items ≡ run.old.log.items }
    ensures next { IfOk result (λ stage. FollowsLine (setup_of scan.now) run.old run.new stage) }
{
    let end = fault(scan, run, kind, Blame::Here(taken_line(run)))?;
    Ok(Stage::Over(end))
}

// The line includes a header.
fn include(scan: &Scan<'_>, run: &mut Run, form: Form, name: Bytes) -> Result<Stage, NoMemory>
    requires { Acted (setup_of scan.now) run.old (Action.Includes form name) }
    ensures same { run.new.log.items ≡ run.old.log.items }
    ensures next { IfOk result (λ stage. FollowsLine (setup_of scan.now) run.old run.new stage) }
{
    let from = current_folder(scan, run)?;
    let line = taken_line(run);
    run.candidates = candidate_count(scan, form, name.as_slice());
    let name = Name {
        form,
        from,
        text: name,
        next: 0,
        line,
    };
    Ok(Stage::Seeks(Lookup::Named(name, Purpose::Included)))
}

// Its condition has tests.
fn ask_condition(scan: &Scan<'_>, run: &mut Run, condition: Condition) -> Result<Stage, NoMemory>
    requires { Acted (setup_of scan.now) run.old (Action.Tests condition) }
    ensures same { run.new.log.items ≡ run.old.log.items }
    ensures next { IfOk result (λ stage. FollowsLine (setup_of scan.now) run.old run.new stage) }
{
    run.tests = condition.tests;
    Ok(Stage::Tests(Testing {
        is_elif: condition.is_elif,
        toks: condition.toks,
        next: 0,
        so_far: Vec::new(scan.alloc),
    }))
}
