ghost use Rattle.std.specs.Prelude.{◌≡◌, ◌<◌, Some, IfOk, IfSome, drop, IsTrue, IsUtf8, length, slice_get};
ghost use Rattle.std.specs.Option.{option_map};
ghost use Rattle.scan_model.specs.TokenTests.{is_of};
ghost use Rattle.scan_model.specs.Skips.{directive_in, skip};
ghost use Rattle.scan_model.specs.declared.command.Dialect.{Dialect};
ghost use Rattle.scan_model.specs.MacroDefinition.{read_define};
ghost use Rattle.macro_table.specs.Definition.{IsDefinition};
ghost use Rattle.reducer.specs.ReducedLines.{AreReduced, toks_of};

use crate::definitions::definitions;
use crate::directive_word::in_dialect;
use crate::flat::{LineRecord, TokRecord, shown_token};
use crate::tables::{skips_in, tables};
use scan_model::{Def, Dialect, Directive, Kind, NoMemory, Skip};
use std::alloc::Global;
use std::marker::Model;
use std::sync::Arc;

/// The kept lines of a text, which contracts see as the list of the lines.
///
/// A line's number is at least the `next` of the line before, and the text of an identifier is well-formed UTF-8.
#[derive(Drop)]
pub struct Reduced {
    // the spellings of all tokens, one after another
    spelled: Vec<u8>,
    // the tokens of all lines
    toks: Vec<TokRecord>,
    lines: Vec<LineRecord>,
    // for each line where the lines after it lead, when it is a conditional whose group isn't taken
    skips: Vec<Skip>,
    // the same in C++20, where it differs: where the text has an `#elifdef` or `#elifndef`
    older_skips: Option<Vec<Skip>>,
    // what each line defines: none where it is no `#define` line, or a bad one
    definitions: Vec<Option<Arc<Def>>>,
}

impl Model for Reduced {
    ghost use Rattle.std.specs.Prelude.{List};
    ghost use Rattle.scan_model.specs.declared.token.Line.{Line};
    ghost use Rattle.reducer.specs.FlatLines.{lines_of};
    ghost use Rattle.reducer.specs.Indexed.{AreIndexed};

    ghost Value = { List Line };

    ghost view = { λ r. lines_of r.spelled.items r.toks.items r.lines.items };

    ghost invariant = { λ r. AreIndexed r.spelled.items r.toks.items r.lines.items r.skips.items r.older_skips r.definitions.items };
}

/// Where a kept line stands in its text.
#[derive(Clone, Copy)]
pub struct LineHead {
    /// The physical number, from 1, of the first token's first byte.
    pub line: u32,
    /// The number of the physical line after its end, at most 33,554,434.
    pub next: u32,
}

/// A token of a kept line.
#[derive(Clone, Copy)]
pub struct TokView<'a> {
    pub kind: Kind,
    /// The spelling after phase 2 of translation.
    pub text: &'a [u8],
    /// Whether it is its line's first, or white space or a comment stands directly before it.
    pub space: bool,
    /// Its line's physical number, from 1.
    pub line: u32,
}

/// What a `#define` line defines: a name, and its definition, which the reduced text shares.
#[derive(Clone, Copy)]
pub struct Definition<'a> {
    pub name: &'a [u8],
    pub def: &'a Arc<Def>,
}

impl Reduced {
    ghost use Rattle.reducer.specs.FlatLines.{lines_of, AreKept};
    ghost use Rattle.reducer.specs.Views.{head, view, defined};

    // The tables of the lines are made here. `Err` is want of memory.
    pub(crate) fn of_parts(
        alloc: Global,
        spelled: Vec<u8>,
        toks: Vec<TokRecord>,
        lines: Vec<LineRecord>,
    ) -> Result<Reduced, NoMemory>
        requires { AreKept spelled.items toks.items lines.items }
        ensures { IfOk result (λ reduced. reduced ≡ lines_of spelled.items toks.items lines.items) }
    {
        let definitions = definitions(alloc, &spelled, &toks, &lines)?;
        let (skips, older_skips) = tables(alloc, &lines)?;
        Ok(Reduced {
            spelled,
            toks,
            lines,
            skips,
            older_skips,
            definitions,
        })
    }

    /// The number of lines.
    pub fn len(&self) -> u32
        ensures lines { result ≡ length self.now }
        ensures valid { AreReduced self.now }
    {
        self.lines.len() as u32
    }

    /// The numbers of the line of this place, from 0.
    pub fn line(&self, k: u32) -> LineHead
        requires { k < length self.now }
        ensures head { option_map head (slice_get self.now k) ≡ Some result }
        ensures valid { AreReduced self.now }
    {
        let line = self.lines[k as usize];
        LineHead {
            line: line.line,
            next: line.next,
        }
    }

    /// What the line of this place, from 0, asks for; nothing where it doesn't begin with `#`.
    pub fn directive(&self, k: u32, dialect: Dialect) -> Directive
        requires { k < length self.now }
        ensures directive { result ≡ directive_in dialect (toks_of self.now k) }
        ensures valid { AreReduced self.now }
    {
        in_dialect(dialect, self.lines[k as usize].directive)
    }

    /// Where the lines after that of the place k, from 0, lead when it is a conditional whose group isn't taken
    /// ([cpp.cond]). It is looked up.
    pub fn skip(&self, k: u32, dialect: Dialect) -> Skip
        requires { k < length self.now }
        ensures skip { result ≡ skip self.now k dialect }
        ensures valid { AreReduced self.now }
    {
        skips_in(dialect, &self.skips, &self.older_skips)[k as usize]
    }

    /// What the `#define` line of this place, from 0, defines; None exactly where it is a bad one ([cpp.replace]).
    pub fn define(&self, k: u32) -> Option<Definition<'_>>
        requires line { k < length self.now }
        requires define { (dialect : Dialect) × (directive_in dialect (toks_of self.now k) ≡ Directive.Define) }
        ensures value { option_map defined result ≡ read_define (drop 2 (toks_of self.now k)) }
        ensures sound { IfSome result (λ d. IsDefinition d.name.now d.def.now.value) }
        ensures valid { AreReduced self.now }
    {
        match &self.definitions[k as usize] {
            Some(def) => {
                let of = self.lines[k as usize];
                let name = self.toks[of.start as usize + 2];
                Some(Definition {
                    name: shown_token(&self.spelled, name, of.line).text,
                    def,
                })
            }
            None => None,
        }
    }

    /// How many tokens the line of this place, from 0, has.
    pub fn tok_count(&self, k: u32) -> u32
        requires { k < length self.now }
        ensures toks { result ≡ length (toks_of self.now k) }
        ensures valid { AreReduced self.now }
    {
        self.lines[k as usize].count
    }

    /// The token of the place i, from 0, of the line of the place k, from 0.
    pub fn tok(&self, k: u32, i: u32) -> TokView<'_>
        requires line { k < length self.now }
        requires tok { i < length (toks_of self.now k) }
        ensures tok { slice_get (toks_of self.now k) i ≡ Some (view result) }
        ensures utf8 { IsTrue (is_of Kind.Ident (view result)) → IsUtf8 result.text.now }
        ensures valid { AreReduced self.now }
    {
        let of = self.lines[k as usize];
        let tok = self.toks[of.start as usize + i as usize];
        shown_token(&self.spelled, tok, of.line)
    }
}
