ghost use Rattle.std.specs.Prelude.{◌≡◌, IfOk, OnErr};
ghost use Rattle.scan_model.specs.MacroDefinition as definition;
ghost use Rattle.scan_model.specs.Directives.{defined, undef_line};
ghost use Rattle.scan_model.specs.Skips.{directive_in};
ghost use Rattle.scan_model.specs.declared.directive.Directive.TheVariants as Directive;
ghost use Rattle.plain_lines.specs.declared.state.FileState.{FileState};
ghost use Rattle.plain_lines.specs.Lines.{IsThere, toks_at, line_of, after_word};
ghost use Rattle.plain_lines.specs.Actions.{Acts};

use crate::action::Action;
use crate::kept_line::KeptLine;
use crate::state::UnitState;
use crate::token_tests::is_ident;
use scan_model::{FaultKind, NoMemory};

/// `#define` ([cpp.replace]). Its definition is shared with the kept lines, which have it ready. Want of memory changes
/// nothing.
pub fn define_line(at: &KeptLine<'_>, unit: &mut UnitState) -> Result<Action, NoMemory>
    requires there { IsThere at.now }
    requires define { directive_in at.now.dialect (toks_at at.now) ≡ Directive.Define }
    ensures ok { IfOk result (λ action. (file : FileState) → Acts at.now (λ files setup c. defined c (line_of at.now) (definition.read_define (after_word at.now))) file unit.old file unit.new action) }
    ensures err { OnErr result (unit.new ≡ unit.old) }
{
    let Some(definition) = at.lines.define(at.place) else {
        return Ok(Action::Stops(FaultKind::BadDefine));
    };
    unit.macros.define_shared(definition.name, definition.def)?;
    Ok(Action::Goes)
}

/// `#undef` ([cpp.scope]).
pub fn undef_line(at: &KeptLine<'_>, unit: &mut UnitState) -> Action
    requires { IsThere at.now }
    ensures { (file : FileState) → Acts at.now (λ files setup c. undef_line c (line_of at.now) (after_word at.now)) file unit.old file unit.new result }
{
    match at.tok(2) {
        Some(name) => {
            if is_ident(name) {
                unit.macros.undef(name.text);
                Action::Goes
            } else {
                Action::Stops(FaultKind::BadDefine)
            }
        }
        None => Action::Stops(FaultKind::BadDefine),
    }
}
