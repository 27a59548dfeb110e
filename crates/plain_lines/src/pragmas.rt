ghost use Rattle.std.specs.Prelude.{◌≡◌, IfOk, OnErr, drop};
ghost use Rattle.std.specs.Option.{option_map};
ghost use Rattle.scan_model.specs.Macros.{push, pop};
ghost use Rattle.scan_model.specs.Directives.{quoted_name, with_macros, pragma_line};
ghost use Rattle.plain_lines.specs.declared.state.FileState.{FileState};
ghost use Rattle.plain_lines.specs.Lines.{IsThere, toks_at, after_word};
ghost use Rattle.plain_lines.specs.Pragmas.{pragma_spelled, pragma_of, now_of};
ghost use Rattle.plain_lines.specs.Actions.{Acts};

use crate::action::Action;
use crate::kept_line::KeptLine;
use crate::state::UnitState;
use crate::token_tests::{is_close_paren, is_ident, is_open_paren, is_plain_string, unquoted};
use scan_model::NoMemory;
use token_spelling::is_ident as is_ident_spelling;

/// What a pragma does ([cpp.pragma]).
#[derive(Clone, Copy)]
pub enum Pragma {
    Once,
    PushMacro,
    PopMacro,
    Other,
}

fn pragma_spelled(word: &[u8]) -> Pragma
    ensures { result ≡ pragma_spelled word.now }
{
    if word == b"once".as_slice() {
        Pragma::Once
    } else if word == b"push_macro".as_slice() {
        Pragma::PushMacro
    } else if word == b"pop_macro".as_slice() {
        Pragma::PopMacro
    } else {
        Pragma::Other
    }
}

// The pragma by its first word.
fn pragma_of(at: &KeptLine<'_>) -> Pragma
    requires { IsThere at.now }
    ensures { result ≡ pragma_of (after_word at.now) }
{
    match at.tok(2) {
        Some(word) => {
            if is_ident(word) {
                pragma_spelled(word.text)
            } else {
                Pragma::Other
            }
        }
        None => Pragma::Other,
    }
}

// The name in the `("X")` after the pragma's word.
fn quoted_name<'a>(at: &KeptLine<'a>) -> Option<&'a [u8]>
    requires { IsThere at.now }
    ensures { option_map now_of result ≡ quoted_name (drop 3 (toks_at at.now)) }
{
    let open = at.tok(3)?;
    let string = at.tok(4)?;
    let close = at.tok(5)?;
    let name = unquoted(string.text);
    if is_open_paren(open)
        && is_plain_string(string)
        && is_close_paren(close)
        && is_ident_spelling(name)
    {
        Some(name)
    } else {
        None
    }
}

// What `#pragma push_macro` does with what follows it. Want of memory changes nothing.
fn push_line(at: &KeptLine<'_>, unit: &mut UnitState) -> Result<Action, NoMemory>
    requires { IsThere at.now }
    ensures ok { IfOk result (λ action. (file : FileState) → Acts at.now (λ files setup c. with_macros c push (quoted_name (drop 3 (toks_at at.now)))) file unit.old file unit.new action) }
    ensures err { OnErr result (unit.new ≡ unit.old) }
{
    match quoted_name(at) {
        Some(name) => {
            unit.macros.push(name)?;
            Ok(Action::Goes)
        }
        None => Ok(Action::Goes),
    }
}

// The same of `#pragma pop_macro`.
fn pop_line(at: &KeptLine<'_>, unit: &mut UnitState) -> Action
    requires { IsThere at.now }
    ensures { (file : FileState) → Acts at.now (λ files setup c. with_macros c pop (quoted_name (drop 3 (toks_at at.now)))) file unit.old file unit.new result }
{
    match quoted_name(at) {
        Some(name) => {
            unit.macros.pop(name);
            Action::Goes
        }
        None => Action::Goes,
    }
}

/// `#pragma` ([cpp.pragma]). Want of memory changes nothing.
pub fn pragma_line(at: &KeptLine<'_>, unit: &mut UnitState) -> Result<Action, NoMemory>
    requires { IsThere at.now }
    ensures ok { IfOk result (λ action. (file : FileState) → Acts at.now (λ files setup c. pragma_line c (after_word at.now)) file unit.old file unit.new action) }
    ensures err { OnErr result (unit.new ≡ unit.old) }
{
    match pragma_of(at) {
        Pragma::Once => {
            unit.once.insert(at.path)?;
            Ok(Action::Goes)
        }
        Pragma::PushMacro => push_line(at, unit),
        Pragma::PopMacro => Ok(pop_line(at, unit)),
        Pragma::Other => Ok(Action::Goes),
    }
}
