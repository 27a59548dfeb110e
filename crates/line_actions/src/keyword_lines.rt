ghost use Rattle.std.specs.Prelude.{◌≡◌, ◌≤◌, List, drop, IfOk, OnErr};
ghost use Rattle.scan_model.specs.declared.token.Tok.{Tok};
ghost use Rattle.scan_model.specs.Spelling.{spells};
ghost use Rattle.scan_model.specs.KeywordLines as line;
ghost use Rattle.reducer.specs.Views.{view};
ghost use Rattle.macro_table.specs.Table.{macros_of};
ghost use Rattle.scan_model.specs.Utf8Names.{HaveUtf8Names};
ghost use Rattle.line_actions.specs.Sent.{IsSent};
ghost use Rattle.plain_lines.specs.Lines.{IsThere, toks_at, line_of};
ghost use Rattle.plain_lines.specs.Actions.{Acts, IsSame};

use crate::replaced::replaced;
use macro_table::{Def, Macros};
use module_lines::{Keyword, RecordBuilder};
use plain_lines::{Action, FileState, KeptLine, UnitState};
use reducer::TokView;
use scan_model::{FaultKind, Mode, NoMemory, Tok};
use std::alloc::Global;

fn is_export(tok: TokView<'_>) -> bool
    ensures { result ≡ spells "export" (view tok.entry).text }
{
    matches!(tok.text, b"export")
}

fn is_import(tok: TokView<'_>) -> bool
    ensures { result ≡ spells "import" (view tok.entry).text }
{
    matches!(tok.text, b"import")
}

fn keyword_of(tok: TokView<'_>) -> Keyword
    ensures { result ≡ line.keyword_of (view tok.entry) }
{
    if is_import(tok) {
        Keyword::Import
    } else {
        Keyword::Module
    }
}

fn is_object_like(macros: &Macros, name: &[u8]) -> bool
    ensures { result ≡ line.is_object_like ((macros_of macros.now).defs name.now) }
{
    match macros.get(name) {
        Some(Def::Object(_)) => true,
        _ => false,
    }
}

// The builder takes the tokens after a keyword. Want of memory changes nothing.
fn send(
    builder: &mut RecordBuilder,
    exported: bool,
    keyword: Keyword,
    toks: &[Tok],
) -> Result<Action, NoMemory>
    requires { HaveUtf8Names toks.now }
    ensures ok { IfOk result (IsSent exported keyword toks.now builder.old builder.new) }
    ensures err { OnErr result (builder.new ≡ builder.old) }
{
    match builder.take(exported, keyword, toks)? {
        Ok(()) => Ok(Action::Sent),
        Err(fault) => Ok(Action::Refused(fault)),
    }
}

// The keyword at the place k and what follows it, after `export` or none. `Err` is want of memory.
fn keyword_line(
    alloc: Global,
    at: &KeptLine<'_>,
    file: &mut FileState,
    unit: &mut UnitState,
    exported: bool,
    k: u32,
) -> Result<Action, NoMemory>
    requires there { IsThere at.now }
    requires first { k ≤ 1 }
    ensures ok { IfOk result (λ action. (before : List Tok) → Acts at.now (λ files setup c. line.keyword_line c (line_of at.now) exported before (drop k (toks_at at.now))) file.old unit.old file.new unit.new action) }
    ensures err { OnErr result (IsSame at.now.path.now file.old unit.old file.new unit.new) }
{
    let Some(keyword) = at.tok(k) else {
        return Ok(Action::Goes);
    };
    if is_object_like(&unit.macros, keyword.text) {
        return Ok(Action::Stops(FaultKind::KeywordIsMacro));
    }
    let toks = at.copy_from(alloc, k + 1)?;
    match replaced(
        alloc,
        at.path,
        &mut file.site,
        &unit.macros,
        Mode::Line,
        &toks,
    )? {
        Ok(toks) => send(
            &mut unit.builder,
            exported,
            keyword_of(keyword),
            toks.as_slice(),
        ),
        Err(fault) => Ok(Action::Stops(fault)),
    }
}

/// A module or import line ([cpp.module], [cpp.import]). `Err` is want of memory.
pub(crate) fn module_line(
    alloc: Global,
    at: &KeptLine<'_>,
    file: &mut FileState,
    unit: &mut UnitState,
) -> Result<Action, NoMemory>
    requires { IsThere at.now }
    ensures ok { IfOk result (Acts at.now (λ files setup c. line.module_line c (line_of at.now) (toks_at at.now)) file.old unit.old file.new unit.new) }
    ensures err { OnErr result (IsSame at.now.path.now file.old unit.old file.new unit.new) }
{
    let Some(first) = at.tok(0) else {
        return Ok(Action::Goes);
    };
    if !is_export(first) {
        return keyword_line(alloc, at, file, unit, false, 0);
    }
    if is_object_like(&unit.macros, first.text) {
        return Ok(Action::Stops(FaultKind::KeywordIsMacro));
    }
    keyword_line(alloc, at, file, unit, true, 1)
}
