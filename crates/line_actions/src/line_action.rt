ghost use Rattle.std.specs.Prelude.{◌≡◌, true, IfOk, OnErr, drop};
ghost use Rattle.scan_model.specs.Directives.{hash_line, directive_of};
ghost use Rattle.scan_model.specs.DirectiveLines.{effect};
ghost use Rattle.plain_lines.specs.States.{groups_of};
ghost use Rattle.plain_lines.specs.Lines.{IsThere, toks_at, line_of, after_word, BeginsHash};
ghost use Rattle.plain_lines.specs.Actions.{Acts, IsSame};
ghost use Rattle.line_actions.specs.Kinds.{is_if, is_next, is_endif, or_skips};

use crate::directives::{next_line, opening_line, plain_line};
use crate::keyword_lines::module_line;
use plain_lines::{
    Action, FileState, KeptLine, OpenGroup, UnitState, endif_line, is_hash, is_skipped,
};
use scan_model::{Directive, NoMemory};
use std::alloc::Global;

fn is_if(directive: Directive) -> bool
    ensures { result ≡ is_if directive }
{
    matches!(
        directive,
        Directive::If | Directive::Ifdef | Directive::Ifndef
    )
}

fn is_next(directive: Directive) -> bool
    ensures { result ≡ is_next directive }
{
    matches!(
        directive,
        Directive::Elif | Directive::Elifdef | Directive::Elifndef | Directive::Else
    )
}

fn is_endif(directive: Directive) -> bool
    ensures { result ≡ is_endif directive }
{
    matches!(directive, Directive::Endif)
}

// A line that began a group goes on, and the caller may skip where the group isn't live.
fn or_skips(groups: &[OpenGroup], action: Action) -> Action
    ensures { result ≡ or_skips (groups_of groups.now) action }
{
    match action {
        Action::Goes => {
            if is_skipped(groups) {
                Action::Skips
            } else {
                Action::Goes
            }
        }
        other => other,
    }
}

/// What a kept line does to the file that it is in and to the unit ([cpp]).
///
/// `Err` is want of memory. The definitions see the file and the unit unchanged then.
pub fn act(
    alloc: Global,
    at: &KeptLine<'_>,
    file: &mut FileState,
    unit: &mut UnitState,
) -> Result<Action, NoMemory>
    requires { IsThere at.now }
    ensures ok { IfOk result (Acts at.now (λ files setup c. effect files setup c (line_of at.now)) file.old unit.old file.new unit.new) }
    ensures err { OnErr result (IsSame at.now.path.now file.old unit.old file.new unit.new) }
{
    match at.tok(0) {
        None => Ok(Action::Goes),
        Some(first) => {
            if is_hash(first) {
                return hash_line(alloc, at, file, unit);
            }
            if is_skipped(&file.groups) {
                return Ok(Action::Goes);
            }
            module_line(alloc, at, file, unit)
        }
    }
}

// A line that begins with `#`.
fn hash_line(
    alloc: Global,
    at: &KeptLine<'_>,
    file: &mut FileState,
    unit: &mut UnitState,
) -> Result<Action, NoMemory>
    requires there { IsThere at.now }
    requires hash { BeginsHash at.now }
    ensures ok { IfOk result (Acts at.now (λ files setup c. hash_line files setup c (line_of at.now) (after_word at.now) (directive_of at.now.dialect (drop 1 (toks_at at.now)))) file.old unit.old file.new unit.new) }
    ensures err { OnErr result (IsSame at.now.path.now file.old unit.old file.new unit.new) }
{
    let directive = at.directive();
    if is_if(directive) {
        let action = opening_line(alloc, at, directive, file, unit)?;
        return Ok(or_skips(&file.groups, action));
    }
    if is_next(directive) {
        let action = next_line(alloc, at, directive, file, unit)?;
        return Ok(or_skips(&file.groups, action));
    }
    if is_endif(directive) {
        return Ok(endif_line(at, file));
    }
    if is_skipped(&file.groups) {
        return Ok(Action::Goes);
    }
    plain_line(alloc, at, directive, file, unit)
}
