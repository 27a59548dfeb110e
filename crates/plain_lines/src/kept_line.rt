ghost use Rattle.std.specs.Prelude.{◌≡◌, ◌+◌, [], ◌∷◌, MatchOption, IfOk, drop};
ghost use Rattle.scan_model.specs.Utf8Names.{HaveUtf8Names};
ghost use Rattle.reducer.specs.Views.{view};

use reducer::{LineHead, Reduced, TokView};
use scan_model::{Bytes, Dialect, Directive, NoMemory, Tok};
use std::alloc::Global;

/// A kept line of a file, and what its directive must know of the file and the command.
#[derive(Clone, Copy)]
pub struct KeptLine<'a> {
    /// The kept lines that it is one of.
    pub lines: &'a Reduced,
    /// Its place among them, from 0.
    pub place: u32,
    /// The numbers that it counts as having: its own, or those of a setting of the command line.
    pub head: LineHead,
    /// The path of the file, as a fault's place has it.
    pub path: &'a [u8],
    /// The edition of the language.
    pub dialect: Dialect,
}

impl<'a> KeptLine<'a> {
    ghost use Rattle.scan_model.specs.Directives.{directive_of};
    ghost use Rattle.scan_model.specs.Skips.{directive_in};
    ghost use Rattle.plain_lines.specs.Lines.{IsThere, BeginsHash, toks_at};

    /// The directive of a line that begins with `#` ([cpp.pre]). It is looked up.
    pub fn directive(&self) -> Directive
        requires there { IsThere self.now }
        requires hash { BeginsHash self.now }
        ensures line { result ≡ directive_in self.now.dialect (toks_at self.now) }
        ensures word { result ≡ directive_of self.now.dialect (drop 1 (toks_at self.now)) }
    {
        self.lines.directive(self.place, self.dialect)
    }

    /// The token of this place, from 0; None past the last one.
    pub fn tok(&self, i: u32) -> Option<TokView<'a>>
        requires { IsThere self.now }
        ensures { MatchOption result (drop i (toks_at self.now) ≡ []) (λ t. drop i (toks_at self.now) ≡ view t ∷ drop (i + 1) (toks_at self.now)) }
    {
        if i < self.lines.tok_count(self.place) {
            Some(self.lines.tok(self.place, i))
        } else {
            None
        }
    }

    /// The tokens from this place on, in memory of their own. `Err` is want of memory.
    pub fn copy_from(&self, alloc: Global, from: u32) -> Result<Vec<Tok>, NoMemory>
        requires { IsThere self.now }
        ensures toks { IfOk result (λ toks. toks.items ≡ drop from (toks_at self.now)) }
        ensures utf8 { IfOk result (λ toks. HaveUtf8Names toks.items) }
    {
        let mut toks = Vec::new(alloc);
        'toks: for i in from..self.lines.tok_count(self.place) {
            toks.push(copy_tok(alloc, self.lines.tok(self.place, i))?)?;
        }
        Ok(toks)
    }
}

fn copy_tok(alloc: Global, tok: TokView<'_>) -> Result<Tok, NoMemory>
    ensures { IfOk result (λ copy. copy ≡ view tok.entry) }
{
    Ok(Tok {
        kind: tok.kind,
        text: Bytes::copy(alloc, tok.text)?,
        space: tok.space,
        line: tok.line,
    })
}
