ghost use Rattle.std.specs.Prelude.{◌≡◌, All, map, drop, IfOk};
ghost use Rattle.std.specs.Option.{option_map};
ghost use Rattle.scan_model.specs.MacroDefinition.{read_define};
ghost use Rattle.reducer.specs.FlatLines.{tok_of, line_of, IsCut, HasToks, AreWithin};
ghost use Rattle.reducer.specs.Definitions.{definition_of, shared, AreDefinitions};

use crate::flat::{LineRecord, TokRecord, shown_token};
use macro_table::read_define;
use scan_model::{Bytes, Def, Directive, NoMemory, Tok};
use std::alloc::Global;
use std::sync::Arc;

/// What each of the lines defines: none where it is no `#define` line, or a bad one. Each is read once. `Err` is want of
/// memory.
pub(crate) fn definitions(
    alloc: Global,
    spelled: &[u8],
    toks: &[TokRecord],
    lines: &[LineRecord],
) -> Result<Vec<Option<Arc<Def>>>, NoMemory>
    requires { AreWithin spelled.now toks.now lines.now }
    ensures { IfOk result (λ made. AreDefinitions spelled.now toks.now lines.now made.items) }
{
    let mut made = Vec::with_capacity(alloc, lines.len())?;
    for line in lines {
        made.push(definition(alloc, spelled, toks, *line)?)?;
    }
    Ok(made)
}

// What the line defines.
fn definition(
    alloc: Global,
    spelled: &[u8],
    toks: &[TokRecord],
    line: LineRecord,
) -> Result<Option<Arc<Def>>, NoMemory>
    requires cut { All (IsCut spelled.now) toks.now }
    requires held { HasToks toks.now line }
    ensures { IfOk result (λ made. shared made ≡ definition_of line.directive (line_of spelled.now toks.now line).toks) }
{
    match line.directive {
        Directive::Define => {
            let after = tokens_after(alloc, spelled, toks, line)?;
            defined_by(alloc, &after)
        }
        _ => Ok(None),
    }
}

// What the tokens after `define` define.
fn defined_by(alloc: Global, after: &[Tok]) -> Result<Option<Arc<Def>>, NoMemory>
    ensures { IfOk result (λ made. shared made ≡ option_map (λ d. d.1) (read_define after.now)) }
{
    match read_define(alloc, after)? {
        Ok((_, def)) => Ok(Some(Arc::new(alloc, def)?)),
        Err(_) => Ok(None),
    }
}

// The tokens after the first two of the line, with memory of their own.
fn tokens_after(
    alloc: Global,
    spelled: &[u8],
    toks: &[TokRecord],
    line: LineRecord,
) -> Result<Vec<Tok>, NoMemory>
    requires cut { All (IsCut spelled.now) toks.now }
    requires held { HasToks toks.now line }
    ensures { IfOk result (λ made. made.items ≡ drop 2 (line_of spelled.now toks.now line).toks) }
{
    let start = line.start as usize;
    let count = line.count as usize;
    let records = &toks[start + count.min(2)..start + count];
    tokens(alloc, spelled, records, line.line)
}

// The tokens of the records, of a line of that number.
fn tokens(
    alloc: Global,
    spelled: &[u8],
    records: &[TokRecord],
    line: u32,
) -> Result<Vec<Tok>, NoMemory>
    requires { All (IsCut spelled.now) records.now }
    ensures { IfOk result (λ made. made.items ≡ map (tok_of spelled.now line) records.now) }
{
    let mut made = Vec::with_capacity(alloc, records.len())?;
    for record in records {
        made.push(token(alloc, spelled, *record, line)?)?;
    }
    Ok(made)
}

fn token(alloc: Global, spelled: &[u8], tok: TokRecord, line: u32) -> Result<Tok, NoMemory>
    requires { IsCut spelled.now tok }
    ensures { IfOk result (λ copy. copy ≡ tok_of spelled.now line tok) }
{
    let shown = shown_token(spelled, tok, line);
    Ok(Tok {
        kind: shown.kind,
        text: Bytes::copy(alloc, shown.text)?,
        space: shown.space,
        line: shown.line,
    })
}
