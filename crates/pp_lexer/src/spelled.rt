ghost use Rattle.std.specs.Prelude.{◌≡◌, ◌≤◌, ◌-◌, ◌++◌, length, drop, take, IfOk, OnOk};
ghost use Rattle.line_splice.specs.Cursor.{text_of, rest};
ghost use Rattle.lexeme_reader.specs.Raws as raws;
ghost use Rattle.scan_model.specs.Tokens.{bytes};
ghost use Rattle.std.specs.List.{list_all};
ghost use Rattle.pp_lexer.specs.Reads.{passed, IsAhead, shows_itself};
ghost use Rattle.pp_lexer.specs.Lexemes.{IsSpelled, spelling_of, FitsBetween};

use crate::lexeme::{Found, Spelling};
use crate::passed::{push_first, push_passed};
use lexeme_reader::RawParts;
use line_splice::Cursor;
use scan_model::NoMemory;
use std::alloc::Global;

fn push_slice(text: &mut Vec<u8>, more: &[u8]) -> Result<(), NoMemory>
    ensures { OnOk result (text.new.items ≡ text.old.items ++ more.now) }
{
    match text.extend_from_slice(more) {
        Ok(()) => Ok(()),
        Err(_) => Err(NoMemory),
    }
}

fn shows_itself(byte: u8) -> bool
    ensures { result ≡ shows_itself byte }
{
    !((byte == b'\\') | (byte == b'\r') | (byte == b'\n'))
}

// Whether the bytes show as they are written: no splice, and no newline of two bytes, can be among them.
fn show_as_written(written: &[u8]) -> bool
    ensures { result ≡ list_all shows_itself written.now }
{
    written.iter().all(|byte| shows_itself(*byte))
}

// Adds what shows between the two cursors over the text, as one slice where it is written so.
fn push_shown(
    out: &mut Vec<u8>,
    text: &[u8],
    from: &Cursor<'_>,
    to: &Cursor<'_>,
) -> Result<(), NoMemory>
    requires from { text_of from.now ≡ text.now }
    requires to { text_of to.now ≡ text.now }
    requires ahead { IsAhead (rest from.now) (rest to.now) }
    ensures { OnOk result (out.new.items ≡ out.old.items ++ bytes (passed (rest from.now) (rest to.now))) }
{
    let start = from.raw_from();
    let end = to.raw_from();
    if start <= end && end <= text.len() {
        let written = &text[start..end];
        if show_as_written(written) {
            return push_slice(out, written);
        }
    }
    push_passed(out, from, to)
}

// Adds the spelling of a raw string: what shows in front, the inside as it is written, and what shows of the suffix.
fn push_raw(
    out: &mut Vec<u8>,
    text: &[u8],
    from: &Cursor<'_>,
    parts: RawParts<'_>,
    to: &Cursor<'_>,
) -> Result<(), NoMemory>
    requires text { text_of to.now ≡ text.now }
    requires parts { FitsBetween parts text.now (rest from.now) (rest to.now) }
    ensures { OnOk result (out.new.items ≡ out.old.items ++ raws.spelling_of parts.entry text.now (rest from.now)) }
{
    push_first(out, from, parts.intro)?;
    push_slice(out, &text[parts.start..parts.end])?;
    push_passed(out, &parts.suffix, to)
}

/// Adds the spelling of the token that was found between the two cursors over the text. `Err` is want of memory.
pub fn push_spelling(
    out: &mut Vec<u8>,
    text: &[u8],
    from: &Cursor<'_>,
    found: Found<'_>,
    to: &Cursor<'_>,
) -> Result<(), NoMemory>
    requires from { text_of from.now ≡ text.now }
    requires to { text_of to.now ≡ text.now }
    requires spelling { IsSpelled text.now found (rest from.now) (rest to.now) }
    ensures { OnOk result (out.new.items ≡ out.old.items ++ spelling_of text.now found.entry.spelling (rest from.now) (rest to.now)) }
{
    match found.spelling {
        Spelling::Shown => push_shown(out, text, from, to),
        Spelling::Raw(parts) => push_raw(out, text, from, parts, to),
    }
}

// The spelling of the token that was found between the two cursors over the text.
pub fn spelled(
    alloc: Global,
    text: &[u8],
    from: &Cursor<'_>,
    found: Found<'_>,
    to: &Cursor<'_>,
) -> Result<Vec<u8>, NoMemory>
    requires from { text_of from.now ≡ text.now }
    requires to { text_of to.now ≡ text.now }
    requires spelling { IsSpelled text.now found (rest from.now) (rest to.now) }
    ensures { IfOk result (λ v. v.items ≡ spelling_of text.now found.entry.spelling (rest from.now) (rest to.now)) }
{
    let mut out = Vec::new(alloc);
    push_spelling(&mut out, text, from, found, to)?;
    Ok(out)
}
