//! What isn't begun yet begins: the settings, the forced files, the main file.
ghost use Rattle.std.specs.Prelude.{◌≡◌, ◌+◌, ◌<◌, ◌≤◌, ◌++◌, [], length, codes, IfOk};
ghost use Rattle.scan_model.specs.WholeUnit.{setting_text};
ghost use Rattle.scan_model.specs.Fits.{CommandFits};
ghost use Rattle.unit_scan.specs.Parts.{setup_of, told};
ghost use Rattle.unit_scan.specs.Taking.{ActsOutside, SettingActs};
ghost use Rattle.unit_scan.specs.Standing.{Running, Follows, IsPlain, plain_fault};

use crate::faults::fault;
use crate::parts::{Left, Run, Scan};
use crate::searches::candidate_count;
use crate::stage::{Blame, FirstFile, Lookup, Name, Purpose, Stage};
use line_actions::{Action, FileState, KeptLine, UnitState, act};
use reducer::{LineHead, Reduced, reduce};
use scan_model::{Bytes, FaultKind, Form, NoMemory, Setting};
use std::alloc::Global;

/// What isn't begun begins, where no file is on the stack. `Err` is want of memory.
pub(crate) fn begin_next(scan: &Scan<'_>, run: &mut Run) -> Result<Stage, NoMemory>
    requires running { Running (setup_of scan.now) run.old }
    requires none { run.old.stack.items ≡ [] }
    ensures same { run.new.log.items ≡ run.old.log.items }
    ensures next { IfOk result (λ stage. Follows (setup_of scan.now) run.old 2 run.new stage) }
{
    match run.left {
        Left::Settings(k) => {
            if k < scan.command.settings.as_slice().len() {
                set(scan, run, k)
            } else {
                run.left = Left::Forced(0);
                Ok(Stage::Runs)
            }
        }
        Left::Forced(k) => {
            if k < scan.command.forced.as_slice().len() {
                force(scan, run, k)
            } else {
                run.left = Left::Nothing;
                run.candidates = 1;
                Ok(Stage::Seeks(Lookup::First(FirstFile::Main)))
            }
        }
        Left::Nothing => Ok(Stage::Recorded),
    }
}

// The forced file of this number, from 0, is looked for.
fn force(scan: &Scan<'_>, run: &mut Run, k: usize) -> Result<Stage, NoMemory>
    requires running { Running (setup_of scan.now) run.old }
    requires none { run.old.stack.items ≡ [] }
    requires left { run.old.left ≡ Left.Forced k }
    requires there { k < length scan.now.command.now.forced }
    ensures same { run.new.log.items ≡ run.old.log.items }
    ensures next { IfOk result (λ stage. Follows (setup_of scan.now) run.old 2 run.new stage) }
{
    let name = scan.command.forced.as_slice()[k].as_slice();
    let line = (scan.command.settings.as_slice().len() + 1 + k) as u32;
    if name.is_empty() {
        let end = fault(scan, run, FaultKind::IncludeSyntax, Blame::Here(line))?;
        return Ok(Stage::Over(end));
    }
    let name = Name {
        form: Form::Quoted,
        from: scan.command.directory.copy(scan.alloc)?,
        text: Bytes::copy(scan.alloc, name)?,
        next: 0,
        line,
    };
    run.candidates = candidate_count(scan, Form::Quoted, name.text.as_slice());
    run.left = Left::Forced(k + 1);
    Ok(Stage::Seeks(Lookup::Named(name, Purpose::Included)))
}

// The text of a setting as a directive. `Err` is want of memory.
fn setting_text(alloc: Global, setting: &Setting) -> Result<Vec<u8>, NoMemory>
    ensures { IfOk result (λ text. text.items ≡ setting_text setting.now) }
{
    let (word, text) = match setting {
        Setting::Define(text) => (b"#define ".as_slice(), text),
        Setting::Undef(text) => (b"#undef ".as_slice(), text),
    };
    let mut whole = Vec::from_slice(alloc, word)?;
    whole.extend_from_slice(text.as_slice())?;
    Ok(whole)
}

// The first of these lines acts outside all files, with this number.
fn act_outside(
    scan: &Scan<'_>,
    lines: &Reduced,
    number: u32,
    state: &mut UnitState,
) -> Result<Action, NoMemory>
    requires some { 0 < length lines.now }
    requires number { number ≤ 33554433 }
    ensures { IfOk result (ActsOutside lines.now number scan.now.command.now.dialect state.old state.new) }
{
    let at = KeptLine {
        lines,
        place: 0,
        head: LineHead {
            line: number,
            next: number + 1,
        },
        path: b"<command line>".as_slice(),
        dialect: scan.command.dialect,
    };
    let mut file = FileState {
        site: None,
        groups: Vec::new(scan.alloc),
        chain_place: None,
    };
    Ok(act(scan.alloc, &at, &mut file, state)?)
}

// The setting of this number, from 0, acts as a directive.
fn act_setting(scan: &Scan<'_>, k: usize, state: &mut UnitState) -> Result<Action, NoMemory>
    requires command { CommandFits scan.now.command.now }
    requires there { k < length scan.now.command.now.settings }
    ensures { IfOk result (SettingActs scan.now.command.now k state.old state.new) }
{
    let text = setting_text(scan.alloc, &scan.command.settings.as_slice()[k])?;
    let lines = reduce(scan.alloc, &text)?;
    act_outside(scan, &lines, k as u32 + 1, state)
}

// The setting of this number, from 0, acts.
fn set(scan: &Scan<'_>, run: &mut Run, k: usize) -> Result<Stage, NoMemory>
    requires running { Running (setup_of scan.now) run.old }
    requires none { run.old.stack.items ≡ [] }
    requires left { run.old.left ≡ Left.Settings k }
    requires there { k < length scan.now.command.now.settings }
    ensures same { run.new.log.items ≡ run.old.log.items }
    ensures next { IfOk result (λ stage. Follows (setup_of scan.now) run.old 2 run.new stage) }
{
    let action = act_setting(scan, k, &mut run.state)?;
    match plain_fault(&action) {
        None => {
            run.left = Left::Settings(k + 1);
            Ok(Stage::Runs)
        }
        Some(kind) => {
            let end = fault(scan, run, kind, Blame::Here(k as u32 + 1))?;
            Ok(Stage::Over(end))
        }
    }
}

// The fault of an action that goes on or stops the unit, where it is one.
fn plain_fault(action: &Action) -> Option<FaultKind>
    requires { IsPlain action.now }
    ensures { result ≡ plain_fault action.now }
{
    match action {
        Action::Goes | Action::Skips => None,
        Action::Stops(kind) => Some(*kind),
        _ => unreachable!(),
    }
}
