ghost use Rattle.std.specs.Prelude.{◌≡◌, ◌+◌, ◌<◌, ◌≤◌, ◌^◌, [], ◌∷◌, ◌++◌, length, IfOk, OnOk};
ghost use Rattle.line_splice.specs.Cursor.{text_of, rest};
ghost use Rattle.pp_lexer.specs.Lexemes.{IsSpelled, spelling_of};
ghost use Rattle.reducer.specs.FlatLines.{tok_of, IsCut};
ghost use Rattle.reducer.specs.Views.{view};

use crate::TokView;
use line_splice::Cursor;
use pp_lexer::{Found, push_spelling};
use scan_model::{Directive, Kind, NoMemory};

/// A token of a line, by where its spelling lies in the list of all spellings.
#[derive(Clone, Copy)]
pub struct TokRecord {
    pub kind: Kind,
    pub space: bool,
    pub start: u32,
    pub len: u32,
}

/// A line, by where its tokens lie in the list of all tokens, and its directive as C++23 has it.
#[derive(Clone, Copy)]
pub struct LineRecord {
    pub line: u32,
    pub next: u32,
    pub start: u32,
    pub count: u32,
    pub directive: Directive,
}

/// The token of a record, of a line of that number.
pub fn shown_token<'a>(spelled: &'a [u8], tok: TokRecord, line: u32) -> TokView<'a>
    requires { IsCut spelled.now tok }
    ensures { view result ≡ tok_of spelled.now line tok }
{
    let start = tok.start as usize;
    let end = start + tok.len as usize;
    TokView {
        kind: tok.kind,
        text: &spelled[start..end],
        space: tok.space,
        line,
    }
}

/// A place in a list, in the four bytes in which places are kept.
pub fn as_u32(n: usize) -> u32
    requires { n < 2 ^ 32 }
    ensures { result ≡ n }
{
    n as u32
}

/// Adds the spelling of the token that was found between the two cursors over the text. The answer is where it
/// begins and how many bytes it has. `Err` is want of memory.
pub fn push_cut(
    spelled: &mut Vec<u8>,
    text: &[u8],
    from: &Cursor<'_>,
    found: Found<'_>,
    to: &Cursor<'_>,
) -> Result<(u32, u32), NoMemory>
    requires from { text_of from.now ≡ text.now }
    requires to { text_of to.now ≡ text.now }
    requires spelling { IsSpelled text.now found (rest from.now) (rest to.now) }
    requires room { length spelled.old.items + length (spelling_of text.now found.spelling (rest from.now) (rest to.now)) ≤ 33554433 }
    ensures grown { OnOk result (spelled.new.items ≡ spelled.old.items ++ spelling_of text.now found.entry.spelling (rest from.now) (rest to.now)) }
    ensures start { IfOk result (λ cut. cut.0 ≡ length spelled.old.items) }
    ensures len { IfOk result (λ cut. cut.1 ≡ length (spelling_of text.now found.entry.spelling (rest from.now) (rest to.now))) }
{
    let start = spelled.len();
    push_spelling(spelled, text, from, found, to)?;
    let len = spelled.len() - start;
    Ok((as_u32(start), as_u32(len)))
}

/// Adds a token at the end. `Err` is want of memory.
pub fn push_tok(toks: &mut Vec<TokRecord>, tok: TokRecord) -> Result<(), NoMemory>
    ensures { OnOk result (toks.new.items ≡ toks.old.items ++ tok ∷ []) }
{
    match toks.push(tok) {
        Ok(()) => Ok(()),
        Err(_) => Err(NoMemory),
    }
}

/// Adds a line at the end. `Err` is want of memory.
pub fn push_line(lines: &mut Vec<LineRecord>, line: LineRecord) -> Result<(), NoMemory>
    ensures { OnOk result (lines.new.items ≡ lines.old.items ++ line ∷ []) }
{
    match lines.push(line) {
        Ok(()) => Ok(()),
        Err(_) => Err(NoMemory),
    }
}
