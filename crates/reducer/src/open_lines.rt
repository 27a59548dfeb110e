ghost use Rattle.std.specs.Prelude.{◌≡◌, ◌≢◌, ◌≤◌, ℕ, List, [], length, slice_get, OnOk, IfOk, if◌then◌else◌};
ghost use Rattle.std.specs.Option.{option_map};
ghost use Rattle.line_splice.specs.Cursor.{text_of, rest};
ghost use Rattle.scan_model.specs.Spliced.{Spot, line_at};
ghost use Rattle.scan_model.specs.Lines.{closed};
ghost use Rattle.pp_lexer.specs.Lexemes.{IsSpelled, spelling_of};
ghost use Rattle.pp_lexer.specs.Reads.{is_nil, line_here};
ghost use Rattle.reducer.specs.Building.{kept_lines, open_toks, IsSound, HasRoom, HasToken, HasLines};
ghost use Rattle.reducer.specs.Placed.{TakesBytes};
ghost use Rattle.reducer.specs.ReducedLines.{AreReduced};
ghost use Rattle.reducer.specs.Views.{view};

use crate::directive_lines::line_directive;
use crate::flat::{LineRecord, TokRecord, as_u32, push_cut, push_line, push_tok, shown_token};
use crate::{Reduced, TokView};
use line_splice::Cursor;
use pp_lexer::Found;
use scan_model::NoMemory;
use std::alloc::Global;

/// The kept lines so far, and the tokens of the line that is being read. No token has memory of its own.
#[derive(Drop)]
pub struct OpenLines {
    spelled: Vec<u8>,
    toks: Vec<TokRecord>,
    lines: Vec<LineRecord>,
    // how much of the first two lists belongs to lines; what follows is of the open line
    kept_bytes: usize,
    kept_toks: usize,
    // the number of the open line, if it has tokens
    line: u32,
}

fn line_after(is_first: bool, here: u32, line: u32) -> u32
    ensures { result ≡ (if is_first then here else line) }
{
    if is_first { here } else { line }
}

impl OpenLines {
    /// No lines, and no tokens of an open one.
    pub fn new(alloc: Global) -> OpenLines
        ensures sound { IsSound result }
        ensures kept { kept_lines result ≡ [] }
        ensures room { (text : List ℕ) (left : List Spot) → HasRoom result text left }
    {
        OpenLines {
            spelled: Vec::new(alloc),
            toks: Vec::new(alloc),
            lines: Vec::new(alloc),
            kept_bytes: 0,
            kept_toks: 0,
            line: 0,
        }
    }

    /// How many tokens the open line has.
    pub fn count(&self) -> usize
        requires { IsSound self.now }
        ensures { result ≡ length (open_toks self.now) }
    {
        self.toks.len() - self.kept_toks
    }

    /// Whether the open line has no tokens.
    pub fn is_empty(&self) -> bool
        requires { IsSound self.now }
        ensures { result ≡ is_nil (open_toks self.now) }
    {
        self.toks.len() == self.kept_toks
    }

    /// The token of this place, from 0, of the open line.
    pub fn get(&self, i: usize) -> Option<TokView<'_>>
        requires { IsSound self.now }
        ensures { option_map view result ≡ slice_get (open_toks self.now) i }
    {
        let open = &self.toks[self.kept_toks..];
        if i < open.len() {
            Some(shown_token(&self.spelled, open[i], self.line))
        } else {
            None
        }
    }

    /// Adds the token that was found between the two cursors to the open line. `Err` is want of memory.
    pub fn push(
        &mut self,
        text: &[u8],
        from: &Cursor<'_>,
        found: Found<'_>,
        to: &Cursor<'_>,
        space: bool,
    ) -> Result<(), NoMemory>
        requires sound { IsSound self.old }
        requires from { text_of from.now ≡ text.now }
        requires to { text_of to.now ≡ text.now }
        requires spelling { IsSpelled text.now found (rest from.now) (rest to.now) }
        requires room { HasRoom self.old text.now (rest from.now) }
        requires taken { TakesBytes text.now (length (spelling_of text.now found.spelling (rest from.now) (rest to.now))) (rest from.now) (rest to.now) }
        ensures room { OnOk result (HasRoom self.new text.now (rest to.now)) }
        ensures token { OnOk result (HasToken self.old self.new (record {
          kind = found.entry.kind;
          text = spelling_of text.now found.entry.spelling (rest from.now) (rest to.now);
          space = space;
          line = line_here (open_toks self.old) (line_at text.now (rest from.now));
        })) }
    {
        let is_first = self.is_empty();
        let (start, len) = push_cut(&mut self.spelled, text, from, found, to)?;
        let tok = TokRecord {
            kind: found.kind,
            space,
            start,
            len,
        };
        push_tok(&mut self.toks, tok)?;
        self.line = line_after(is_first, from.line(), self.line);
        Ok(())
    }

    /// Drops the tokens of the open line.
    pub fn drop_line(&mut self)
        requires { IsSound self.old }
        ensures sound { IsSound self.new }
        ensures kept { kept_lines self.new ≡ kept_lines self.old }
        ensures toks { open_toks self.new ≡ [] }
        ensures bytes_shrink { length self.new.spelled.items ≤ length self.old.spelled.items }
        ensures toks_shrink { length self.new.toks.items ≤ length self.old.toks.items }
    {
        self.spelled.truncate(self.kept_bytes);
        self.toks.truncate(self.kept_toks);
    }

    /// Adds the open line, which has tokens, to the lines; the physical line `last` ends it. `Err` is want of memory.
    pub fn keep_line(&mut self, last: u32) -> Result<(), NoMemory>
        requires sound { IsSound self.old }
        requires some { open_toks self.old ≢ [] }
        requires few { length self.old.toks.items ≤ 33554433 }
        requires last { last ≤ 33554433 }
        ensures { OnOk result (HasLines self.old self.new (closed (open_toks self.old) last)) }
    {
        let directive = line_directive(self);
        let start = as_u32(self.kept_toks);
        let count = as_u32(self.toks.len() - self.kept_toks);
        let line = LineRecord {
            line: self.line,
            next: last + 1,
            start,
            count,
            directive,
        };
        push_line(&mut self.lines, line)?;
        self.kept_bytes = self.spelled.len();
        self.kept_toks = self.toks.len();
        Ok(())
    }

    /// The lines, without the open one. `Err` is want of memory.
    pub fn into_reduced(self, alloc: Global) -> Result<Reduced, NoMemory>
        requires sound { IsSound self }
        requires reduced { AreReduced (kept_lines self) }
        ensures { IfOk result (λ reduced. reduced ≡ kept_lines self) }
    {
        let OpenLines {
            mut spelled,
            mut toks,
            lines,
            kept_bytes,
            kept_toks,
            line: _,
        } = self;
        spelled.truncate(kept_bytes);
        toks.truncate(kept_toks);
        Reduced::of_parts(alloc, spelled, toks, lines)
    }
}
