//! The lines of the file at the top of the stack.
ghost use Rattle.std.specs.Prelude.{◌≡◌, ◌+◌, ◌<◌, ◌≤◌, [], length, nat_le, IfOk, OnOk, MatchOption};
ghost use Rattle.std.specs.Arc.{arc_value};
ghost use Rattle.unit_steps.specs.Logs.{lines_at};
ghost use Rattle.unit_scan.specs.Parts.{IsFile, answers_of, setup_of, told};
ghost use Rattle.unit_scan.specs.Taking.{ActsAt, HasFurther, IsAtEnd};
ghost use Rattle.unit_scan.specs.Standing.{Running, Follows};

use crate::faults::{fault, path_at, top};
use crate::obeying::obey;
use crate::parts::{Answered, OpenFile, Run, Scan};
use crate::stage::{Blame, Stage};
use line_actions::{Action, KeptLine, UnitState, act};
use plain_lines::innermost;
use reducer::{Answer, Reduced};
use scan_model::{FaultKind, NoMemory};
use std::alloc::Global;
use std::sync::Arc;

fn as_reduced(lines: &Arc<Reduced, Global>) -> &Reduced
    ensures { result.now ≡ arc_value lines.now }
{
    lines
}

/// The kept lines of the answer at this place; none where it has no text.
pub(crate) fn lines_of(log: &[Answered], place: usize) -> Option<&Reduced>
    requires { place < length log.now }
    ensures { MatchOption result (lines_at (answers_of log.now) place ≡ []) (λ lines. lines.now ≡ lines_at (answers_of log.now) place) }
{
    match &log[place].answer {
        Answer::Lines(lines) => Some(as_reduced(lines)),
        _ => None,
    }
}

// The next line of a file does what it does. `Err` is want of memory.
fn act_on(
    scan: &Scan<'_>,
    log: &[Answered],
    file: &mut OpenFile,
    state: &mut UnitState,
) -> Result<Action, NoMemory>
    requires there { file.old.answer < length log.now }
    requires next { file.old.next < length (lines_at (answers_of log.now) file.old.answer) }
    ensures answer { OnOk result (file.new.answer ≡ file.old.answer) }
    ensures next { OnOk result (file.new.next ≡ file.old.next + 1) }
    ensures acts { IfOk result (ActsAt (answers_of log.now) scan.now.command.now.dialect file.old state.old file.new state.new) }
{
    let Some(lines) = lines_of(log, file.answer) else {
        unreachable!()
    };
    let at = KeptLine {
        lines,
        place: file.next,
        head: lines.line(file.next),
        path: path_at(log, file.answer),
        dialect: scan.command.dialect,
    };
    let action = act(scan.alloc, &at, &mut file.state, state)?;
    file.next += 1;
    Ok(action)
}

// Whether no line of the file at the top is left.
fn is_at_end(log: &[Answered], file: &OpenFile) -> bool
    requires { IsFile (answers_of log.now) file.now }
    ensures { result ≡ nat_le (length (lines_at (answers_of log.now) file.now.answer)) file.now.next }
{
    match lines_of(log, file.answer) {
        Some(lines) => lines.len() <= file.next,
        None => true,
    }
}

/// The file at the top goes on, or ends. `Err` is want of memory.
pub(crate) fn in_file(scan: &Scan<'_>, run: &mut Run) -> Result<Stage, NoMemory>
    requires running { Running (setup_of scan.now) run.old }
    requires some { 0 < length run.old.stack.items }
    ensures same { run.new.log.items ≡ run.old.log.items }
    ensures next { IfOk result (λ stage. Follows (setup_of scan.now) run.old 2 run.new stage) }
{
    if is_at_end(&run.log, top(&run.stack)) {
        end_file(scan, run)
    } else {
        take_line(scan, run)
    }
}

// The next line is taken.
fn take_line(scan: &Scan<'_>, run: &mut Run) -> Result<Stage, NoMemory>
    requires running { Running (setup_of scan.now) run.old }
    requires further { HasFurther run.old }
    ensures same { run.new.log.items ≡ run.old.log.items }
    ensures next { IfOk result (λ stage. Follows (setup_of scan.now) run.old 2 run.new stage) }
{
    let Some(mut file) = run.stack.pop() else {
        unreachable!()
    };
    let action = act_on(scan, &run.log, &mut file, &mut run.state)?;
    run.stack.push(file)?;
    obey(scan, run, action)
}

// No line is left: the file below goes on, or a conditional is open.
fn end_file(scan: &Scan<'_>, run: &mut Run) -> Result<Stage, NoMemory>
    requires running { Running (setup_of scan.now) run.old }
    requires over { IsAtEnd run.old }
    ensures same { run.new.log.items ≡ run.old.log.items }
    ensures next { IfOk result (λ stage. Follows (setup_of scan.now) run.old 2 run.new stage) }
{
    let open = innermost(&top(&run.stack).state.groups);
    if let Some(group) = open {
        let end = fault(scan, run, FaultKind::Unbalanced, Blame::Here(group.line))?;
        return Ok(Stage::Over(end));
    }
    let _ = run.stack.pop();
    Ok(Stage::Runs)
}
