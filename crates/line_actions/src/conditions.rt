ghost use Rattle.std.specs.Prelude.{◌≡◌, ◌≤◌, true, drop, length, IfOk, OnErr, IsTrue, is_some};
ghost use Rattle.std.specs.Option.{option_map};
ghost use Rattle.scan_model.specs.declared.expansion.Mode.TheVariants as ModeIs;
ghost use Rattle.scan_model.specs.HeaderName.{terms};
ghost use Rattle.scan_model.specs.Condition.{value};
ghost use Rattle.scan_model.specs.ConditionValue.{is_nonzero};
ghost use Rattle.scan_model.specs.Conditionals.{fault_of, with_condition, on_terms, on_value, next_group, on_chosen, opening_of};
ghost use Rattle.if_values.specs.Known.{has_count, HasEntries};
ghost use Rattle.plain_lines.specs.declared.state.UnitState.{UnitState};
ghost use Rattle.line_actions.specs.Kinds.{goes_or_stops};
ghost use Rattle.line_actions.specs.Tests.{Finds};
ghost use Rattle.plain_lines.specs.Lines.{IsThere, BeginsGroup, line_of, after_word};
ghost use Rattle.plain_lines.specs.Actions.{Acts, IsSame};

use crate::header_names::header_or_name;
use crate::replaced::replaced;
use if_values::{next_has, value};
use plain_lines::{
    Action, Condition, FileState, KeptLine, NextGroup, UnitState, choose, next_group, pass_group,
};
use scan_model::{
    Bytes, CondFault, CondValue, FaultKind, Form, HasNext, Items, Mode, NoMemory, Tok,
};
use std::alloc::Global;

/// A `__has_include` or `__has_include_next` of a condition ([cpp.cond]).
#[derive(Drop)]
pub struct Test {
    /// Whether it is a `__has_include_next`.
    pub next: bool,
    /// The form that is written.
    pub form: Form,
    /// The name that is looked for.
    pub name: Bytes,
    /// The place after its `)`.
    pub past: usize,
}

/// The first `__has_include` or `__has_include_next` of a condition's tokens from this place on; None exactly where there is
/// none. None of them may be malformed. `Err` is want of memory.
pub fn next_test(alloc: Global, toks: &[Tok], from: usize) -> Result<Option<Test>, NoMemory>
    requires place { from ≤ length toks.now }
    requires terms { IsTrue (is_some (terms (drop from toks.now))) }
    ensures { IfOk result (Finds toks.now from) }
{
    match next_has(toks, from) {
        HasNext::End => Ok(None),
        HasNext::Bad(_) => unreachable!(),
        HasNext::At(at) => match header_or_name(alloc, rest(toks, at.first))? {
            Some((form, name)) => Ok(Some(Test {
                next: at.next,
                form,
                name,
                past: at.past + 1,
            })),
            None => unreachable!(),
        },
    }
}

fn rest(toks: &[Tok], from: usize) -> &[Tok]
    requires { from ≤ length toks.now }
    ensures { result.now ≡ drop from toks.now }
{
    &toks[from..]
}

// How many `__has_include`s and `__has_include_next`s the tokens have; None exactly where one is malformed.
fn test_count(toks: &[Tok]) -> Option<usize>
    ensures { result ≡ option_map has_count (terms toks.now) }
{
    let mut from = 0;
    let mut count = 0;
    'tests: loop {
        match next_has(toks, from) {
            HasNext::End => return Some(count),
            HasNext::Bad(_) => return None,
            HasNext::At(at) => {
                from = at.past + 1;
                count += 1;
            }
        }
    }
}

/// The unit's fault for the fault of a condition that has no value.
pub fn fault_of(fault: CondFault) -> FaultKind
    ensures { result ≡ fault_of fault }
{
    match fault {
        CondFault::BadCondition => FaultKind::BadCondition,
        CondFault::DivisionByZero => FaultKind::DivisionByZero,
        CondFault::BadShift => FaultKind::BadShift,
        CondFault::BadNumber => FaultKind::BadNumber,
        CondFault::ConditionTooDeep => FaultKind::ConditionTooDeep,
    }
}

/// Whether a condition of this value holds ([cpp.cond]).
pub fn is_nonzero(value: CondValue) -> bool
    ensures { result ≡ is_nonzero value }
{
    value.bits != 0
}

// What a condition does whose `__has_include`s and `__has_include_next`s have these answers, in order: a group of its
// conditional is begun, and the action is `Goes`; or it has a fault, and the action is `Stops`. `Err` is want of memory.
fn conclude(
    at: &KeptLine<'_>,
    file: &mut FileState,
    toks: &[Tok],
    has: &[bool],
    is_elif: bool,
) -> Result<Action, NoMemory>
    requires { HasEntries toks.now has.now }
    ensures ok { IfOk result (λ action. (unit : UnitState) → Acts at.now (λ files setup c. on_value (line_of at.now) (on_chosen (line_of at.now) (opening_of is_elif c.stack)) (value toks.now has.now) c) file.old unit file.new unit action) }
    ensures ends { IfOk result (λ action. IsTrue (goes_or_stops action)) }
    ensures err { OnErr result ((unit : UnitState) → IsSame at.now.path.now file.old unit file.new unit) }
{
    match value(toks, has) {
        Ok(value) => {
            choose(&mut file.groups, at.head.line, is_elif, is_nonzero(value))?;
            Ok(Action::Goes)
        }
        Err(fault) => Ok(Action::Stops(fault_of(fault))),
    }
}

// What the replaced tokens of a condition do.
fn tested(
    at: &KeptLine<'_>,
    file: &mut FileState,
    toks: Items<Tok>,
    is_elif: bool,
) -> Result<Action, NoMemory>
    requires { BeginsGroup at.now }
    ensures ok { IfOk result (λ action. (unit : UnitState) → Acts at.now (λ files setup c. on_terms files setup c (line_of at.now) toks (on_chosen (line_of at.now) (opening_of is_elif c.stack)) (terms toks)) file.old unit file.new unit action) }
    ensures err { OnErr result ((unit : UnitState) → IsSame at.now.path.now file.old unit file.new unit) }
{
    match test_count(toks.as_slice()) {
        None => Ok(Action::Stops(FaultKind::BadCondition)),
        Some(0) => conclude(at, file, toks.as_slice(), &[], is_elif),
        Some(tests) => Ok(Action::Tests(Condition {
            toks,
            is_elif,
            tests,
        })),
    }
}

/// `#if`, or an `#elif` whose condition is asked ([cpp.cond]). `Err` is want of memory.
pub(crate) fn if_line(
    alloc: Global,
    at: &KeptLine<'_>,
    file: &mut FileState,
    unit: &UnitState,
    is_elif: bool,
) -> Result<Action, NoMemory>
    requires there { IsThere at.now }
    requires group { BeginsGroup at.now }
    ensures ok { IfOk result (Acts at.now (λ files setup c. with_condition files setup c (line_of at.now) (after_word at.now) (on_chosen (line_of at.now) (opening_of is_elif c.stack))) file.old unit.now file.new unit.now) }
    ensures err { OnErr result (IsSame at.now.path.now file.old unit.now file.new unit.now) }
{
    let toks = at.copy_from(alloc, 2)?;
    match replaced(
        alloc,
        at.path,
        &mut file.site,
        &unit.macros,
        Mode::Condition,
        &toks,
    )? {
        Ok(toks) => tested(at, file, toks, is_elif),
        Err(fault) => Ok(Action::Stops(fault)),
    }
}

/// `#elif`. `Err` is want of memory.
pub(crate) fn elif_line(
    alloc: Global,
    at: &KeptLine<'_>,
    file: &mut FileState,
    unit: &UnitState,
) -> Result<Action, NoMemory>
    requires there { IsThere at.now }
    requires group { BeginsGroup at.now }
    ensures ok { IfOk result (Acts at.now (λ files setup c. next_group c (line_of at.now) (with_condition files setup c (line_of at.now) (after_word at.now)) c.stack) file.old unit.now file.new unit.now) }
    ensures err { OnErr result (IsSame at.now.path.now file.old unit.now file.new unit.now) }
{
    match next_group(&file.groups) {
        NextGroup::Unbalanced => Ok(Action::Stops(FaultKind::Unbalanced)),
        NextGroup::Passed => {
            pass_group(&mut file.groups);
            Ok(Action::Goes)
        }
        NextGroup::Asked => if_line(alloc, at, file, unit, true),
    }
}
