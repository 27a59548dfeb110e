ghost use Rattle.std.specs.Prelude.{◌≡◌, IfOk, OnErr};
ghost use Rattle.std.specs.Option.{option_map};
ghost use Rattle.scan_model.specs.Site.{renumbered};
ghost use Rattle.scan_model.specs.Directives.{line_set};
ghost use Rattle.std.specs.List.{list_all};
ghost use Rattle.std.specs.Char.{is_ascii_digit};
ghost use Rattle.scan_model.specs.declared.expansion.Mode.TheVariants as ModeIs;
ghost use Rattle.scan_model.specs.Replacing.{with_replaced};
ghost use Rattle.plain_lines.specs.declared.state.UnitState.{UnitState};
ghost use Rattle.plain_lines.specs.States.{site_of};
ghost use Rattle.line_actions.specs.Numbers.{small_number, number_in, change_of, change_seen, file_after};
ghost use Rattle.plain_lines.specs.Lines.{IsThere, line_of, after_word};
ghost use Rattle.plain_lines.specs.Actions.{Acts, IsSame};

use crate::replaced::replaced;
use crate::sites::file_at;
use if_values::number;
use plain_lines::{Action, FileState, KeptLine, UnitState};
use scan_model::{Bytes, FaultKind, Kind, Mode, NoMemory, Site, Tok};
use std::alloc::Global;

/// What a `#line` asks for ([cpp.line]).
#[derive(Clone, Copy)]
pub(crate) struct LineChange<'a> {
    /// The number of the next line.
    pub(crate) number: u32,
    /// The string of the file's presumed name, where it changes.
    pub(crate) file: Option<&'a [u8]>,
}

fn are_digits(text: &[u8]) -> bool
    ensures { result ≡ list_all is_ascii_digit text.now }
{
    text.iter().all(|byte| byte.is_ascii_digit())
}

// The number that these decimal digits write, up to 2147483647; None exactly where there is none.
fn small_number(text: &[u8]) -> Option<u32>
    ensures { result ≡ small_number text.now }
{
    if !are_digits(text) {
        return None;
    }
    match number(10, text) {
        Some(number) => {
            if number <= 2147483647 {
                Some(number as u32)
            } else {
                None
            }
        }
        None => None,
    }
}

fn number_in(tok: &Tok) -> Option<u32>
    ensures { result ≡ number_in tok.now }
{
    if matches!(tok.kind, Kind::Number) {
        small_number(tok.text.as_slice())
    } else {
        None
    }
}

fn line_change(toks: &[Tok]) -> Option<LineChange<'_>>
    ensures { option_map change_seen result ≡ change_of toks.now }
{
    if toks.is_empty() {
        return None;
    }
    let number = number_in(&toks[0])?;
    if toks.len() == 1 {
        return Some(LineChange { number, file: None });
    }
    if toks[1].is_plain_string() {
        Some(LineChange {
            number,
            file: Some(toks[1].text.as_slice()),
        })
    } else {
        None
    }
}

fn file_after(
    alloc: Global,
    path: &[u8],
    site: &Option<Site>,
    change: LineChange<'_>,
) -> Result<Bytes, NoMemory>
    ensures { IfOk result (λ text. text ≡ file_after (site_of path.now site.now).file (change_seen change.entry)) }
{
    match change.file {
        Some(text) => Bytes::copy(alloc, text),
        None => file_at(alloc, path, site),
    }
}

// The site after a `#line` with this number, where the line `next` follows.
fn renumbered(number: u32, file: Bytes, next: u32) -> Site
    ensures { result ≡ renumbered number file next }
{
    Site {
        file,
        shift: number as i64 - next as i64,
    }
}

// What the replaced tokens of a `#line` do. Want of memory changes nothing.
fn renumber(
    alloc: Global,
    at: &KeptLine<'_>,
    file: &mut FileState,
    toks: &[Tok],
) -> Result<Action, NoMemory>
    ensures ok { IfOk result (λ action. (unit : UnitState) → Acts at.now (λ files setup c. line_set c (line_of at.now) toks.now) file.old unit file.new unit action) }
    ensures err { OnErr result (file.new ≡ file.old) }
{
    let Some(change) = line_change(toks) else {
        return Ok(Action::Stops(FaultKind::BadLine));
    };
    let name = file_after(alloc, at.path, &file.site, change)?;
    file.site = Some(renumbered(change.number, name, at.head.next));
    Ok(Action::Goes)
}

/// `#line` ([cpp.line]). `Err` is want of memory.
pub(crate) fn line_line(
    alloc: Global,
    at: &KeptLine<'_>,
    file: &mut FileState,
    unit: &UnitState,
) -> Result<Action, NoMemory>
    requires { IsThere at.now }
    ensures ok { IfOk result (Acts at.now (λ files setup c. with_replaced ModeIs.Line c (line_of at.now) (after_word at.now) (line_set c (line_of at.now))) file.old unit.now file.new unit.now) }
    ensures err { OnErr result (IsSame at.now.path.now file.old unit.now file.new unit.now) }
{
    let toks = at.copy_from(alloc, 2)?;
    match replaced(
        alloc,
        at.path,
        &mut file.site,
        &unit.macros,
        Mode::Line,
        &toks,
    )? {
        Ok(toks) => renumber(alloc, at, file, toks.as_slice()),
        Err(fault) => Ok(Action::Stops(fault)),
    }
}
