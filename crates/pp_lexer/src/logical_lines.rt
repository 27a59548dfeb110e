ghost use Rattle.std.specs.Prelude.{◌≡◌, ◌≤◌, ◌++◌, [], ◌∷◌, length, drop, IfOk, OnOk};
ghost use Rattle.line_splice.specs.Cursor.{text_of, rest};
ghost use Rattle.scan_model.specs.Lines.{lines, closed};
ghost use Rattle.scan_model.specs.Limits.{file_limit};

use crate::tokens::next_token;
use line_splice::Cursor;
use scan_model::{Items, Line, NoMemory, Tok};
use std::alloc::Global;

/// The logical lines of a text that have tokens ([lex.phases], [lex.pptoken]). `Err` is want of memory. A text has at
/// most 32 MiB.
pub fn lines(alloc: Global, text: &[u8]) -> Result<Items<Line>, NoMemory>
    requires { length text.now ≤ file_limit }
    ensures { IfOk result (λ ls. ls ≡ lines text.now) }
{
    let mut at = Cursor::new(text);
    let mut out = Items::new(alloc);
    let mut toks = Items::new(alloc);
    let mut bare_to = 0;
    'lines: while !at.is_end() {
        match next_token(alloc, text, &mut at, toks.as_slice(), &mut bare_to)? {
            Some(tok) => push(&mut toks, tok)?,
            None => {
                end_line(&mut out, toks, at.line())?;
                toks = Items::new(alloc);
                pass_newline(&mut at);
            }
        }
    }
    end_line(&mut out, toks, at.line())?;
    Ok(out)
}

// Adds the line of these tokens, if there are any; the physical line `last` ends it.
fn end_line(out: &mut Items<Line>, toks: Items<Tok>, last: u32) -> Result<(), NoMemory>
    requires { last ≤ 33554433 }
    ensures { OnOk result (out.new ≡ out.old ++ closed toks last) }
{
    match toks.as_slice() {
        [first, ..] => {
            let line = first.line;
            push(
                out,
                Line {
                    toks,
                    line,
                    next: last + 1,
                },
            )
        }
        [] => Ok(()),
    }
}

fn push<T: Drop>(items: &mut Items<T>, item: T) -> Result<(), NoMemory>
    ensures { OnOk result (items.new ≡ items.old ++ item ∷ []) }
{
    match items.push(item) {
        Ok(()) => Ok(()),
        Err(_) => Err(NoMemory),
    }
}

fn pass_newline(at: &mut Cursor<'_>)
    ensures text { text_of at.new ≡ text_of at.old }
    ensures rest { rest at.new ≡ drop 1 (rest at.old) }
{
    if !at.is_end() {
        at.advance();
    }
}
