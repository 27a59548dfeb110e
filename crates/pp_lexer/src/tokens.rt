ghost use Rattle.std.specs.Prelude.{◌≡◌, ◌<◌, nat_lt, length, IfOk, OnOk, OnErr};
ghost use Rattle.line_splice.specs.Cursor.{text_of, rest};
ghost use Rattle.lexeme_reader.specs.Fronts.{line};
ghost use Rattle.pp_lexer.specs.Brackets.{IsBare};
ghost use Rattle.pp_lexer.specs.Reads.{GivesToken, is_nil, line_here};

use crate::blanks::pass_blanks;
use crate::header_names::wants_header;
use crate::open_brackets::pass_next_lexeme;
use crate::spelled::spelled;
use line_splice::Cursor;
use scan_model::{Bytes, NoMemory, Tok};
use std::alloc::Global;

fn is_nil(before: &[Tok]) -> bool
    ensures { result ≡ is_nil before.now }
{
    match before {
        [_, ..] => false,
        [] => true,
    }
}

// The line of the tokens, or the given one where there are none.
fn line_here(before: &[Tok], line: u32) -> u32
    ensures { result ≡ line_here before.now line }
{
    match before {
        [first, ..] => first.line,
        [] => line,
    }
}

/// Whether a byte other than a newline stands here.
pub fn is_on_line(at: &Cursor<'_>) -> bool
    ensures { result ≡ nat_lt 0 (length (line (rest at.now))) }
{
    match at.peek() {
        Some(byte) => byte != b'\n',
        None => false,
    }
}

/// The next token after the tokens `before` of its line, with its line and whether space stands before it
/// ([lex.pptoken]). White space and comments are passed first. `at` is a cursor over the text, directly after the last of
/// those tokens, or at the start of a line where there are none; it then stands directly after the token. None exactly
/// where a newline outside comments, or the end, comes first; `at` then stands there. `Err` is want of memory, and leaves
/// `at` as it was.
pub fn token(
    alloc: Global,
    text: &[u8],
    at: &mut Cursor<'_>,
    before: &[Tok],
) -> Result<Option<Tok>, NoMemory>
    requires { text_of at.old ≡ text.now }
    ensures text { text_of at.new ≡ text_of at.old }
    ensures token { IfOk result (λ t. GivesToken text.now before.now (rest at.old) t (rest at.new)) }
    ensures err { OnErr result (rest at.new ≡ rest at.old) }
{
    let mut bare_to = 0;
    next_token(alloc, text, at, before, &mut bare_to)
}

// The same, for a caller that asks for the tokens of a text one after another: up to the place `bare_to`, which begins
// as 0, no `>` closes a header name, so that it is looked for once and not for each `<`.
pub fn next_token(
    alloc: Global,
    text: &[u8],
    at: &mut Cursor<'_>,
    before: &[Tok],
    bare_to: &mut usize,
) -> Result<Option<Tok>, NoMemory>
    requires text { text_of at.old ≡ text.now }
    requires bare { IsBare bare_to.old text.now (rest at.old) }
    ensures text { text_of at.new ≡ text_of at.old }
    ensures token { IfOk result (λ t. GivesToken text.now before.now (rest at.old) t (rest at.new)) }
    ensures err { OnErr result (rest at.new ≡ rest at.old) }
    ensures bare { OnOk result (IsBare bare_to.new text.now (rest at.new)) }
{
    let mut next = *at;
    let space = pass_blanks(&mut next) | is_nil(before);
    if !is_on_line(&next) {
        *at = next;
        return Ok(None);
    }
    let line = line_here(before, next.line());
    let from = next;
    let found = pass_next_lexeme(&mut next, wants_header(before), bare_to);
    let spelling = spelled(alloc, text, &from, found, &next)?;
    *at = next;
    Ok(Some(Tok {
        kind: found.kind,
        text: Bytes::of_vec(spelling),
        space,
        line,
    }))
}
