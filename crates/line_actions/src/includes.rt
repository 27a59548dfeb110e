ghost use Rattle.std.specs.Prelude.{◌≡◌, ◌∷◌, List, true, false, MatchOption, IfOk, OnErr};
ghost use Rattle.std.specs.Option.{option_and_then};
ghost use Rattle.scan_model.specs.declared.token.Tok.{Tok};
ghost use Rattle.scan_model.specs.declared.token.Kind.TheVariants.{Header};
ghost use Rattle.scan_model.specs.declared.expansion.Mode.TheVariants as ModeIs;
ghost use Rattle.scan_model.specs.TokenTests.{is_of, begins_with};
ghost use Rattle.scan_model.specs.HeaderName as name;
ghost use Rattle.scan_model.specs.Search.{search_form};
ghost use Rattle.scan_model.specs.Replacing.{with_replaced};
ghost use Rattle.scan_model.specs.Includes.{include_line, include_named};
ghost use Rattle.line_actions.specs.Names.{included};
ghost use Rattle.plain_lines.specs.Lines.{IsThere, line_of, after_word};
ghost use Rattle.plain_lines.specs.Actions.{Acts, IsSame};

use crate::header_names::{header_name, name_of};
use crate::replaced::replaced;
use plain_lines::{Action, FileState, KeptLine, UnitState, is_header};
use scan_model::{Bytes, FaultKind, Form, Mode, NoMemory};
use std::alloc::Global;

/// The form by which a name is looked for from a file with this place in the chain of folders, where it has one: with `next`
/// from that place on, whichever form is written.
pub fn search_form(next: bool, chain_place: Option<u32>, form: Form) -> Form
    ensures { result ≡ search_form next chain_place form }
{
    match chain_place {
        Some(place) => { if next { Form::Next(place) } else { form } }
        None => form,
    }
}

fn included(chain_place: Option<u32>, next: bool, name: Option<(Form, Bytes)>) -> Action
    ensures { result ≡ included chain_place next name }
{
    match name {
        Some((form, name)) => {
            if name.as_slice().is_empty() {
                Action::Stops(FaultKind::IncludeSyntax)
            } else {
                Action::Includes(search_form(next, chain_place, form), name)
            }
        }
        None => Action::Stops(FaultKind::IncludeSyntax),
    }
}

// The text of the header that stands after the directive's word; None exactly where none does.
fn header_at<'a>(at: &KeptLine<'a>) -> Option<&'a [u8]>
    requires { IsThere at.now }
    ensures { MatchOption result (begins_with (is_of Header) (after_word at.now) ≡ false) (λ text. (t : Tok) × ((ts : List Tok) × ((after_word at.now ≡ t ∷ ts) × (t.text ≡ text.now) × (is_of Header t ≡ true)))) }
{
    match at.tok(2) {
        Some(tok) => { if is_header(tok) { Some(tok.text) } else { None } }
        None => None,
    }
}

/// `#include`, or with `next` `#include_next` ([cpp.include]). `Err` is want of memory.
pub(crate) fn include_line(
    alloc: Global,
    at: &KeptLine<'_>,
    file: &mut FileState,
    unit: &UnitState,
    next: bool,
) -> Result<Action, NoMemory>
    requires { IsThere at.now }
    ensures ok { IfOk result (Acts at.now (λ files setup c. include_line next files setup c (line_of at.now) (after_word at.now)) file.old unit.now file.new unit.now) }
    ensures err { OnErr result (IsSame at.now.path.now file.old unit.now file.new unit.now) }
{
    match header_at(at) {
        Some(text) => {
            let name = header_name(alloc, text)?;
            Ok(included(file.chain_place, next, Some(name)))
        }
        None => include_replaced(alloc, at, file, unit, next),
    }
}

// The same where no header stands after the word: the tokens are replaced.
fn include_replaced(
    alloc: Global,
    at: &KeptLine<'_>,
    file: &mut FileState,
    unit: &UnitState,
    next: bool,
) -> Result<Action, NoMemory>
    requires { IsThere at.now }
    ensures ok { IfOk result (Acts at.now (λ files setup c. with_replaced ModeIs.Line c (line_of at.now) (after_word at.now) (λ toks. include_named next files setup c (line_of at.now) (option_and_then name.nonempty (name.name_of toks)))) file.old unit.now file.new unit.now) }
    ensures err { OnErr result (IsSame at.now.path.now file.old unit.now file.new unit.now) }
{
    let toks = at.copy_from(alloc, 2)?;
    match replaced(
        alloc,
        at.path,
        &mut file.site,
        &unit.macros,
        Mode::Line,
        &toks,
    )? {
        Ok(toks) => {
            let name = name_of(alloc, toks.as_slice())?;
            Ok(included(file.chain_place, next, name))
        }
        Err(fault) => Ok(Action::Stops(fault)),
    }
}
