ghost use Rattle.std.specs.Prelude.{◌≡◌, true, false, IfOk, OnErr};
ghost use Rattle.scan_model.specs.Directives.{hash_line, plain_line};
ghost use Rattle.scan_model.specs.Skips.{directive_in};
ghost use Rattle.plain_lines.specs.Lines.{IsThere, BeginsGroup, toks_at, line_of, after_word};
ghost use Rattle.plain_lines.specs.Actions.{Acts, IsSame};
ghost use Rattle.line_actions.specs.Kinds.{is_if, is_next, is_plain};

use crate::conditions::{elif_line, if_line};
use crate::includes::include_line;
use crate::line_numbers::line_line;
use plain_lines::{
    Action, FileState, KeptLine, UnitState, define_line, elifdef_line, else_line, ifdef_line,
    is_skipped, pragma_line, skipped_if_line, undef_line,
};
use scan_model::{Directive, FaultKind, NoMemory};
use std::alloc::Global;

/// `#if`, `#ifdef` and `#ifndef`. `Err` is want of memory.
pub(crate) fn opening_line(
    alloc: Global,
    at: &KeptLine<'_>,
    directive: Directive,
    file: &mut FileState,
    unit: &UnitState,
) -> Result<Action, NoMemory>
    requires there { IsThere at.now }
    requires group { BeginsGroup at.now }
    requires opens { is_if directive ≡ true }
    ensures ok { IfOk result (Acts at.now (λ files setup c. hash_line files setup c (line_of at.now) (after_word at.now) directive) file.old unit.now file.new unit.now) }
    ensures err { OnErr result (IsSame at.now.path.now file.old unit.now file.new unit.now) }
{
    if is_skipped(&file.groups) {
        return skipped_if_line(at, file);
    }
    match directive {
        Directive::If => if_line(alloc, at, file, unit, false),
        Directive::Ifdef => ifdef_line(at, file, unit, false, false),
        Directive::Ifndef => ifdef_line(at, file, unit, false, true),
        _ => unreachable!(),
    }
}

/// `#elif`, `#elifdef`, `#elifndef` and `#else`. `Err` is want of memory.
pub(crate) fn next_line(
    alloc: Global,
    at: &KeptLine<'_>,
    directive: Directive,
    file: &mut FileState,
    unit: &UnitState,
) -> Result<Action, NoMemory>
    requires there { IsThere at.now }
    requires group { BeginsGroup at.now }
    requires goes_on { is_next directive ≡ true }
    ensures ok { IfOk result (Acts at.now (λ files setup c. hash_line files setup c (line_of at.now) (after_word at.now) directive) file.old unit.now file.new unit.now) }
    ensures err { OnErr result (IsSame at.now.path.now file.old unit.now file.new unit.now) }
{
    match directive {
        Directive::Elif => elif_line(alloc, at, file, unit),
        Directive::Elifdef => elifdef_line(at, file, unit, false),
        Directive::Elifndef => elifdef_line(at, file, unit, true),
        Directive::Else => Ok(else_line(at, file)),
        _ => unreachable!(),
    }
}

/// A directive that is none of conditionals, where no group is skipped. `Err` is want of memory.
pub(crate) fn plain_line(
    alloc: Global,
    at: &KeptLine<'_>,
    directive: Directive,
    file: &mut FileState,
    unit: &mut UnitState,
) -> Result<Action, NoMemory>
    requires there { IsThere at.now }
    requires own { directive_in at.now.dialect (toks_at at.now) ≡ directive }
    requires plain { is_plain directive ≡ true }
    ensures ok { IfOk result (Acts at.now (λ files setup c. plain_line files setup c (line_of at.now) (after_word at.now) directive) file.old unit.old file.new unit.new) }
    ensures err { OnErr result (IsSame at.now.path.now file.old unit.old file.new unit.new) }
{
    match directive {
        Directive::Define => define_line(at, unit),
        Directive::Undef => Ok(undef_line(at, unit)),
        Directive::Include => include_line(alloc, at, file, unit, false),
        Directive::IncludeNext => include_line(alloc, at, file, unit, true),
        Directive::Renumber => line_line(alloc, at, file, unit),
        Directive::Error => Ok(Action::Stops(FaultKind::ErrorDirective)),
        Directive::Pragma => pragma_line(at, unit),
        Directive::Nothing => Ok(Action::Goes),
        Directive::Unknown => Ok(Action::Stops(FaultKind::UnknownDirective)),
        _ => unreachable!(),
    }
}
