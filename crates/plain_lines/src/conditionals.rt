ghost use Rattle.std.specs.Prelude.{◌≡◌, IfOk, OnErr};
ghost use Rattle.scan_model.specs.Conditionals.{with_defined, opened_skipped, next_group, else_line, endif_line, on_chosen, opening_of};
ghost use Rattle.macro_table.specs.Table.{macros_of};
ghost use Rattle.plain_lines.specs.declared.state.UnitState.{UnitState};
ghost use Rattle.plain_lines.specs.States.{groups_of};
ghost use Rattle.plain_lines.specs.Conditions.{known_name, turned};
ghost use Rattle.plain_lines.specs.NextGroups.{finds, passed};
ghost use Rattle.plain_lines.specs.Lines.{IsThere, line_of, after_word};
ghost use Rattle.plain_lines.specs.Actions.{Acts, IsSame};

use crate::action::Action;
use crate::groups::{choose, close_innermost, innermost, open_group, set_innermost};
use crate::kept_line::KeptLine;
use crate::state::{FileState, OpenGroup, UnitState};
use crate::token_tests::is_ident;
use macro_table::Macros;
use scan_model::{FaultKind, NoMemory};

/// What a line that begins the next group of the innermost conditional finds.
#[derive(Clone, Copy)]
pub enum NextGroup {
    /// No conditional is open, or its `#else` has come.
    Unbalanced,
    /// No further group of it can be taken.
    Passed,
    /// The group is taken by its condition.
    Asked,
}

pub fn next_group(groups: &[OpenGroup]) -> NextGroup
    ensures { result ≡ finds (groups_of groups.now) }
{
    match innermost(groups) {
        None => NextGroup::Unbalanced,
        Some(group) => {
            if group.past_else {
                NextGroup::Unbalanced
            } else if group.taken {
                NextGroup::Passed
            } else {
                NextGroup::Asked
            }
        }
    }
}

/// The next group of the innermost conditional isn't taken.
pub fn pass_group(groups: &mut Vec<OpenGroup>)
    ensures { groups_of groups.new.items ≡ passed (groups_of groups.old.items) }
{
    if let Some(group) = innermost(groups) {
        set_innermost(
            groups,
            OpenGroup {
                live: false,
                ..group
            },
        );
    }
}

// Whether the name after the directive's word is defined; None exactly where no identifier stands there.
fn is_defined(at: &KeptLine<'_>, macros: &Macros) -> Option<bool>
    requires { IsThere at.now }
    ensures { result ≡ known_name (macros_of macros.now).defs (after_word at.now) }
{
    match at.tok(2) {
        Some(name) => {
            if is_ident(name) {
                Some(macros.get(name.text).is_some())
            } else {
                None
            }
        }
        None => None,
    }
}

fn turned(negated: bool, yields: bool) -> bool
    ensures { result ≡ turned negated yields }
{
    if negated { !yields } else { yields }
}

/// `#ifdef` and `#ifndef`, or an `#elifdef` or `#elifndef` whose condition is asked. `Err` is want of memory.
pub fn ifdef_line(
    at: &KeptLine<'_>,
    file: &mut FileState,
    unit: &UnitState,
    is_elif: bool,
    negated: bool,
) -> Result<Action, NoMemory>
    requires { IsThere at.now }
    ensures ok { IfOk result (Acts at.now (λ files setup c. with_defined c (line_of at.now) (after_word at.now) (λ yields. on_chosen (line_of at.now) (opening_of is_elif c.stack) (turned negated yields))) file.old unit.now file.new unit.now) }
    ensures err { OnErr result (IsSame at.now.path.now file.old unit.now file.new unit.now) }
{
    let Some(yields) = is_defined(at, &unit.macros) else {
        return Ok(Action::Stops(FaultKind::BadCondition));
    };
    choose(
        &mut file.groups,
        at.head.line,
        is_elif,
        turned(negated, yields),
    )?;
    Ok(Action::Goes)
}

/// `#elifdef` and `#elifndef`. `Err` is want of memory.
pub fn elifdef_line(
    at: &KeptLine<'_>,
    file: &mut FileState,
    unit: &UnitState,
    negated: bool,
) -> Result<Action, NoMemory>
    requires { IsThere at.now }
    ensures ok { IfOk result (Acts at.now (λ files setup c. next_group c (line_of at.now) (λ further. with_defined c (line_of at.now) (after_word at.now) (λ yields. further (turned negated yields))) c.stack) file.old unit.now file.new unit.now) }
    ensures err { OnErr result (IsSame at.now.path.now file.old unit.now file.new unit.now) }
{
    match next_group(&file.groups) {
        NextGroup::Unbalanced => Ok(Action::Stops(FaultKind::Unbalanced)),
        NextGroup::Passed => {
            pass_group(&mut file.groups);
            Ok(Action::Goes)
        }
        NextGroup::Asked => ifdef_line(at, file, unit, true, negated),
    }
}

/// A conditional in a skipped group. `Err` is want of memory.
pub fn skipped_if_line(at: &KeptLine<'_>, file: &mut FileState) -> Result<Action, NoMemory>
    ensures ok { IfOk result (λ action. (unit : UnitState) → Acts at.now (λ files setup c. opened_skipped (line_of at.now) c) file.old unit file.new unit action) }
    ensures err { OnErr result ((unit : UnitState) → IsSame at.now.path.now file.old unit file.new unit) }
{
    open_group(
        &mut file.groups,
        OpenGroup {
            line: at.head.line,
            live: false,
            taken: true,
            past_else: false,
        },
    )?;
    Ok(Action::Goes)
}

/// `#else`
pub fn else_line(at: &KeptLine<'_>, file: &mut FileState) -> Action
    ensures { (unit : UnitState) → Acts at.now (λ files setup c. else_line c (line_of at.now) c.stack) file.old unit file.new unit result }
{
    let _ = at;
    let Some(group) = innermost(&file.groups) else {
        return Action::Stops(FaultKind::Unbalanced);
    };
    if group.past_else {
        return Action::Stops(FaultKind::Unbalanced);
    }
    set_innermost(
        &mut file.groups,
        OpenGroup {
            line: group.line,
            live: !group.taken,
            taken: true,
            past_else: true,
        },
    );
    Action::Goes
}

/// `#endif`
pub fn endif_line(at: &KeptLine<'_>, file: &mut FileState) -> Action
    ensures { (unit : UnitState) → Acts at.now (λ files setup c. endif_line c (line_of at.now) c.stack) file.old unit file.new unit result }
{
    let _ = at;
    if innermost(&file.groups).is_none() {
        return Action::Stops(FaultKind::Unbalanced);
    }
    close_innermost(&mut file.groups);
    Action::Goes
}
