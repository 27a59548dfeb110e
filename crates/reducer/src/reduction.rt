ghost use Rattle.std.specs.Prelude.{◌≡◌, ◌≤◌, ◌-◌, ◌++◌, [], length, drop, IfOk, OnOk};
ghost use Rattle.std.specs.List.{filter};
ghost use Rattle.line_splice.specs.Cursor.{text_of, rest};
ghost use Rattle.scan_model.specs.Lines.{closed, is_directive, kept};
ghost use Rattle.scan_model.specs.Limits.{file_limit};
ghost use Rattle.pp_lexer.specs.Brackets.{IsBare};
ghost use Rattle.reducer.specs.Building.{kept_lines, open_toks, IsSound, HasRoom, HasLines};
ghost use Rattle.reducer.specs.Placed.{IsFurther};
ghost use Rattle.reducer.specs.Directives.{IsPassed, kept_from};
ghost use Rattle.reducer.specs.ReadToken.{ReadsToken};

use crate::Reduced;
use crate::directive_lines::{begins_directive, is_text};
use crate::fronts::begins_text;
use crate::header_wanted::wants_header;
use crate::open_lines::OpenLines;
use calm_runs::pass_run;
use line_splice::Cursor;
use pp_lexer::{is_on_line, pass_blanks, pass_next_lexeme, pass_token};
use scan_model::NoMemory;
use std::alloc::Global;

// Goes on to the next line. No memory is taken for the tokens that are passed, which are those of a line that is no
// directive, as the tokens before tell or the one that stands here; most of them are passed by whole runs.
fn pass_line(at: &mut Cursor<'_>)
    ensures text { text_of at.new ≡ text_of at.old }
    ensures kept { IsPassed (text_of at.old) (rest at.old) (rest at.new) }
    ensures less { length (rest at.new) ≤ length (rest at.old) - 1 }
    ensures further { IsFurther (text_of at.old) (rest at.old) (rest at.new) }
{
    pass_run(at);
    'tokens: while pass_token(at) {
        pass_run(at);
    }
    pass_newline(at);
}

fn pass_newline(at: &mut Cursor<'_>)
    ensures text { text_of at.new ≡ text_of at.old }
    ensures rest { rest at.new ≡ drop 1 (rest at.old) }
{
    if !at.is_end() {
        at.advance();
    }
}

// Reads the next token of the open line, and adds it. The answer is false exactly where a newline outside comments, or
// the end, comes first; `at` then stands there. Up to the place `bare_to` no `>` closes a header name.
fn read_token(
    text: &[u8],
    at: &mut Cursor<'_>,
    bare_to: &mut usize,
    lines: &mut OpenLines,
) -> Result<bool, NoMemory>
    requires text { text_of at.old ≡ text.now }
    requires sound { IsSound lines.old }
    requires room { HasRoom lines.old text.now (rest at.old) }
    requires bare { IsBare bare_to.old text.now (rest at.old) }
    ensures text { text_of at.new ≡ text_of at.old }
    ensures room { OnOk result (HasRoom lines.new text.now (rest at.new)) }
    ensures bare { OnOk result (IsBare bare_to.new text.now (rest at.new)) }
    ensures read { IfOk result (λ read. ReadsToken text.now lines.old (rest at.old) read lines.new (rest at.new)) }
{
    let space = pass_blanks(at) | lines.is_empty();
    if !is_on_line(at) {
        return Ok(false);
    }
    let from = *at;
    let found = pass_next_lexeme(at, wants_header(lines), bare_to);
    lines.push(text, &from, found, at, space)?;
    Ok(true)
}

// Adds the open line where it is a directive; the physical line `last` ends it.
fn end_line(lines: &mut OpenLines, last: u32) -> Result<(), NoMemory>
    requires sound { IsSound lines.old }
    requires few { length lines.old.toks.items ≤ 33554433 }
    requires last { last ≤ 33554433 }
    ensures { OnOk result (HasLines lines.old lines.new (filter is_directive (closed (open_toks lines.old) last))) }
{
    if begins_directive(lines) {
        lines.keep_line(last)
    } else {
        Ok(())
    }
}

// Reads the line that begins here, and adds it where it is a directive. Its tokens are added until they tell that it is
// none.
fn read_line(text: &[u8], at: &mut Cursor<'_>, lines: &mut OpenLines) -> Result<(), NoMemory>
    requires text { text_of at.old ≡ text.now }
    requires sound { IsSound lines.old }
    requires room { HasRoom lines.old text.now (rest at.old) }
    ensures text { text_of at.new ≡ text_of at.old }
    ensures sound { OnOk result (IsSound lines.new) }
    ensures room { OnOk result (HasRoom lines.new text.now (rest at.new)) }
    ensures kept { OnOk result (kept_lines lines.new ++ kept_from text.now [] (rest at.new) ≡ kept_lines lines.old ++ kept_from text.now [] (rest at.old)) }
    ensures less { OnOk result (length (rest at.new) ≤ length (rest at.old) - 1) }
{
    lines.drop_line();
    let mut bare_to = 0;
    'toks: while read_token(text, at, &mut bare_to, lines)? {
        if is_text(lines) {
            pass_line(at);
            return Ok(());
        }
    }
    end_line(lines, at.line())?;
    pass_newline(at);
    Ok(())
}

// Reads or passes the line that begins here, and adds it where it is a directive. Where its front tells that it is none,
// no token of it is kept.
fn reduce_line(text: &[u8], at: &mut Cursor<'_>, lines: &mut OpenLines) -> Result<(), NoMemory>
    requires text { text_of at.old ≡ text.now }
    requires sound { IsSound lines.old }
    requires room { HasRoom lines.old text.now (rest at.old) }
    ensures text { text_of at.new ≡ text_of at.old }
    ensures sound { OnOk result (IsSound lines.new) }
    ensures room { OnOk result (HasRoom lines.new text.now (rest at.new)) }
    ensures kept { OnOk result (kept_lines lines.new ++ kept_from text.now [] (rest at.new) ≡ kept_lines lines.old ++ kept_from text.now [] (rest at.old)) }
    ensures less { OnOk result (length (rest at.new) ≤ length (rest at.old) - 1) }
{
    pass_blanks(at);
    if begins_text(at) {
        pass_line(at);
        return Ok(());
    }
    read_line(text, at, lines)
}

/// The lines of the text that are directives ([cpp.pre]). `Err` is want of memory. A text has at most 32 MiB.
///
/// Of the other lines no token is kept, and no more are read to be kept than the first few, where those must tell. No
/// token has memory of its own.
pub fn reduce(alloc: Global, text: &[u8]) -> Result<Reduced, NoMemory>
    requires { length text.now ≤ file_limit }
    ensures { IfOk result (λ reduced. reduced ≡ kept text.now) }
{
    let mut at = Cursor::new(text);
    let mut lines = OpenLines::new(alloc);
    'lines: while let Some(byte) = at.peek() {
        // Many lines are empty: their newline is passed at once.
        if byte == b'\n' {
            at.advance();
            continue;
        }
        reduce_line(text, &mut at, &mut lines)?;
    }
    lines.into_reduced(alloc)
}
