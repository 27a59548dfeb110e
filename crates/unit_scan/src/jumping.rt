//! A jump over the lines of a group that isn't taken.
ghost use Rattle.std.specs.Prelude.{◌≡◌, ◌<◌, length, reverse, IfOk};
ghost use Rattle.std.specs.List.{AllByRecursion};
ghost use Rattle.scan_model.specs.Skips.{skip};
ghost use Rattle.plain_lines.specs.States.{groups_of};
ghost use Rattle.unit_laws.specs.Skipping.{line_at};
ghost use Rattle.unit_steps.specs.Jumps.{left_open};
ghost use Rattle.unit_scan.specs.Parts.{IsFile, setup_of, told};
ghost use Rattle.unit_scan.specs.Jumps.{landing, top_landing};
ghost use Rattle.unit_scan.specs.Lookups.{HasTaken};
ghost use Rattle.unit_scan.specs.Standing.{Acted, FollowsJump};

use crate::faults::{fault, top};
use crate::lines::lines_of;
use crate::parts::{Run, Scan};
use crate::stage::{Blame, Stage};
use line_actions::{Action, OpenGroup};
use plain_lines::innermost;
use reducer::Reduced;
use scan_model::{Dialect, FaultKind, NoMemory, Skip};

// The physical number of the line at this place.
fn number_at(lines: &Reduced, place: u32) -> u32
    requires { place < length lines.now }
    ensures { result ≡ line_at lines.now place }
{
    lines.line(place).line
}

// The line of the innermost conditional that the file's end leaves open, where a skip from the place k tells the place m.
fn left_open(lines: &Reduced, k: u32, m: u32, groups: &[OpenGroup]) -> u32
    requires { m < length lines.now }
    ensures { result ≡ left_open lines.now k m (groups_of groups.now) }
{
    if m != k {
        return number_at(lines, m);
    }
    match innermost(groups) {
        Some(group) => group.line,
        None => 0,
    }
}

// Where the lines after the one at the place k lead: to the line of a place, or, as `Err`, to the line at which the
// conditionals are unbalanced.
fn landing(lines: &Reduced, k: u32, dialect: Dialect, groups: &[OpenGroup]) -> Result<u32, u32>
    requires { k < length lines.now }
    ensures { result ≡ landing lines.now k (groups_of groups.now) (skip lines.now k dialect) }
{
    match lines.skip(k, dialect) {
        Skip::Partner(place) => Ok(place),
        Skip::Broken(place) => Err(number_at(lines, place)),
        Skip::Open(place) => Err(left_open(lines, k, place, groups)),
    }
}

// The same after the line that was taken last.
fn top_landing(scan: &Scan<'_>, run: &Run) -> Result<u32, u32>
    requires files { AllByRecursion (IsFile (told run.now)) run.now.stack.items }
    requires taken { HasTaken run.now.stack.items }
    ensures { result ≡ top_landing scan.now.command.now.dialect (told run.now) (reverse run.now.stack.items) }
{
    let file = top(&run.stack);
    match lines_of(&run.log, file.answer) {
        Some(lines) => landing(
            lines,
            file.next - 1,
            scan.command.dialect,
            &file.state.groups,
        ),
        None => unreachable!(),
    }
}

/// The group that the last line begins isn't taken: the lines after it are passed over. `Err` is want of memory.
pub(crate) fn jump(scan: &Scan<'_>, run: &mut Run) -> Result<Stage, NoMemory>
    requires { Acted (setup_of scan.now) run.old Action.Skips }
    ensures same { run.new.log.items ≡ run.old.log.items }
    ensures next { IfOk result (λ stage. FollowsJump (setup_of scan.now) run.old run.new stage) }
{
    match top_landing(scan, run) {
        Ok(place) => {
            let Some(mut file) = run.stack.pop() else {
                unreachable!()
            };
            file.next = place;
            run.stack.push(file)?;
            Ok(Stage::Runs)
        }
        Err(line) => {
            let end = fault(scan, run, FaultKind::Unbalanced, Blame::Here(line))?;
            Ok(Stage::Over(end))
        }
    }
}
