//! The path that was asked has its answer.
ghost use Rattle.std.specs.Prelude.{◌≡◌, ℕ, ◌+◌, ◌-◌, ◌<◌, ◌≤◌, ◌^◌, List, [], ◌∷◌, ◌++◌, length, IfOk};
ghost use Rattle.scan_model.specs.TokenTests.{is_among};
ghost use Rattle.reducer.specs.Answers.{content_of};
ghost use Rattle.unit_laws.specs.Reduction.{Given};
ghost use Rattle.scan_model.specs.declared.command.Command.{Command};
ghost use Rattle.unit_steps.specs.Logs.{lines_at, path_at};
ghost use Rattle.unit_steps.specs.Stack.{first_depth};
ghost use Rattle.unit_scan.specs.Parts.{answers_of, setup_of, top_of};
ghost use Rattle.unit_scan.specs.Told.{outcome_of};
ghost use Rattle.unit_scan.specs.Lookups.{missing_of};
ghost use Rattle.unit_scan.specs.Standing.{Answering, IsFaulty, IsAbsent, IsPresent, Entering, Follows, blame_of};

use crate::faults::{fault, path_at};
use crate::parts::{Answered, Left, OpenFile, Run, Scan};
use crate::searches::with_answer;
use crate::stage::{Blame, FirstFile, Lookup, Name, Purpose, Stage};
use line_actions::{FileState, UnitState};
use path_search::place;
use reducer::Answer;
use scan_model::{FaultKind, NoMemory, Outcome, UnitEnd};

fn outcome_of(answer: &Answer) -> Outcome
    ensures { result ≡ outcome_of (content_of answer.now) }
{
    match answer {
        Answer::Lines(_) => Outcome::Present,
        Answer::Absent => Outcome::Absent,
        Answer::Failed => Outcome::Failed,
        Answer::Big => Outcome::Big,
        Answer::NoMemory => Outcome::NoMemory,
    }
}

// What the last answer of the log tells.
fn last_outcome(log: &[Answered]) -> Outcome
    requires { 0 < length log.now }
    ensures { (before : List (List ℕ × Given)) (a : List ℕ × Given) → answers_of log.now ≡ before ++ a ∷ [] → result ≡ outcome_of a.1 }
{
    outcome_of(&log[log.len() - 1].answer)
}

fn blame_of(lookup: &Lookup) -> Blame
    ensures { result ≡ blame_of lookup.now }
{
    match lookup {
        Lookup::First(_) => Blame::Alone,
        Lookup::Named(name, _) => Blame::Here(name.line),
    }
}

fn missing_of(first: FirstFile) -> FaultKind
    ensures { result ≡ missing_of first }
{
    match first {
        FirstFile::Predefines => FaultKind::IncludeNotFound,
        FirstFile::Main => FaultKind::MainMissing,
    }
}

/// What the answer makes of the search. `Err` is want of memory.
pub(crate) fn on_answer(scan: &Scan<'_>, run: &mut Run, lookup: Lookup) -> Result<Stage, NoMemory>
    requires { Answering (setup_of scan.now) run.old lookup }
    ensures same { run.new.log.items ≡ run.old.log.items }
    ensures next { IfOk result (λ stage. Follows (setup_of scan.now) run.old 5 run.new stage) }
{
    match last_outcome(&run.log) {
        Outcome::Present => on_present(scan, run, lookup),
        Outcome::Absent => on_absent(scan, run, lookup),
        Outcome::Failed => faulty(scan, run, &lookup, FaultKind::ReadFault),
        Outcome::Big => faulty(scan, run, &lookup, FaultKind::FileTooLarge),
        Outcome::NoMemory => Ok(Stage::Over(UnitEnd::NoMemory)),
    }
}

// The end at a file that can't be read.
fn faulty(
    scan: &Scan<'_>,
    run: &mut Run,
    lookup: &Lookup,
    kind: FaultKind,
) -> Result<Stage, NoMemory>
    requires { IsFaulty (setup_of scan.now) run.old lookup.now kind }
    ensures same { run.new.log.items ≡ run.old.log.items }
    ensures next { IfOk result (λ stage. Follows (setup_of scan.now) run.old 5 run.new stage) }
{
    let end = fault(scan, run, kind, blame_of(lookup))?;
    Ok(Stage::Over(end))
}

// No file is there: the next candidate is looked for, and a first file is missing.
fn on_absent(scan: &Scan<'_>, run: &mut Run, lookup: Lookup) -> Result<Stage, NoMemory>
    requires { IsAbsent (setup_of scan.now) run.old lookup }
    ensures same { run.new.log.items ≡ run.old.log.items }
    ensures next { IfOk result (λ stage. Follows (setup_of scan.now) run.old 5 run.new stage) }
{
    match lookup {
        Lookup::First(first) => {
            let end = fault(scan, run, missing_of(first), Blame::Alone)?;
            Ok(Stage::Over(end))
        }
        Lookup::Named(mut name, purpose) => {
            name.next += 1;
            Ok(Stage::Seeks(Lookup::Named(name, purpose)))
        }
    }
}

// A file is there.
fn on_present(scan: &Scan<'_>, run: &mut Run, lookup: Lookup) -> Result<Stage, NoMemory>
    requires { IsPresent (setup_of scan.now) run.old lookup }
    ensures same { run.new.log.items ≡ run.old.log.items }
    ensures next { IfOk result (λ stage. Follows (setup_of scan.now) run.old 5 run.new stage) }
{
    match lookup {
        Lookup::First(_) => enter(scan, run, Blame::Alone, None),
        Lookup::Named(name, purpose) => on_named(scan, run, name, purpose),
    }
}

// The file of a name is there.
fn on_named(scan: &Scan<'_>, run: &mut Run, name: Name, purpose: Purpose) -> Result<Stage, NoMemory>
    requires { IsPresent (setup_of scan.now) run.old (Lookup.Named name purpose) }
    ensures same { run.new.log.items ≡ run.old.log.items }
    ensures next { IfOk result (λ stage. Follows (setup_of scan.now) run.old 5 run.new stage) }
{
    match purpose {
        Purpose::Included => included(scan, run, &name),
        Purpose::Tested(testing) => with_answer(testing, true),
    }
}

// Whether the file that was given last is in the once set.
fn is_passed(state: &UnitState, log: &[Answered]) -> bool
    requires { 0 < length log.now }
    ensures { result ≡ is_among state.now.once (path_at (answers_of log.now) (length log.now - 1)) }
{
    state.once.contains(path_at(log, log.len() - 1))
}

// An include or a forced file is there: it is entered, where it isn't in the once set.
fn included(scan: &Scan<'_>, run: &mut Run, name: &Name) -> Result<Stage, NoMemory>
    requires { IsPresent (setup_of scan.now) run.old (Lookup.Named name.now Purpose.Included) }
    ensures same { run.new.log.items ≡ run.old.log.items }
    ensures next { IfOk result (λ stage. Follows (setup_of scan.now) run.old 5 run.new stage) }
{
    if is_passed(&run.state, &run.log) {
        return Ok(Stage::Runs);
    }
    let list = &scan.command.search;
    let program = &scan.settings.program;
    let chain_place = place(list, program, name.form, name.text.as_slice(), name.next);
    enter(scan, run, Blame::Here(name.line), chain_place)
}

// How deep the file is that is entered next.
fn next_depth(left: Left, files: usize) -> usize
    requires { files ≤ 201 }
    ensures { (command : Command) → result ≡ first_depth (top_of command left) + files }
{
    match left {
        Left::Forced(_) => files + 1,
        _ => files,
    }
}

// A text has fewer than 2 ^ 32 kept lines.
fn has_few_lines(log: &[Answered], place: usize)
    requires { place < length log.now }
    ensures { length (lines_at (answers_of log.now) place) < 2 ^ 32 }
{
    match &log[place].answer {
        Answer::Lines(lines) => {
            let _ = lines.len();
        }
        _ => {}
    }
}

// The file that was given last is entered, or can't be.
fn enter(
    scan: &Scan<'_>,
    run: &mut Run,
    blame: Blame,
    chain_place: Option<u32>,
) -> Result<Stage, NoMemory>
    requires { Entering (setup_of scan.now) run.old blame chain_place }
    ensures same { run.new.log.items ≡ run.old.log.items }
    ensures next { IfOk result (λ stage. Follows (setup_of scan.now) run.old 5 run.new stage) }
{
    if next_depth(run.left, run.stack.len()) > 200 {
        return Ok(Stage::Over(fault(scan, run, FaultKind::TooDeep, blame)?));
    }
    if run.entered >= 65536 {
        return Ok(Stage::Over(fault(scan, run, FaultKind::TooManyEntered, blame)?));
    }
    let last = run.log.len() - 1;
    has_few_lines(&run.log, last);
    let file = OpenFile {
        answer: last,
        next: 0,
        state: FileState {
            site: None,
            groups: Vec::new(scan.alloc),
            chain_place,
        },
    };
    run.stack.push(file)?;
    run.entered += 1;
    Ok(Stage::Runs)
}
