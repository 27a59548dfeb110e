ghost use Rattle.std.specs.Prelude.{◌≡◌, ◌≤◌, map, length, IsTrue, IsFalse, IfOk};
ghost use Rattle.scan_model.specs.declared.command.Dialect.{Dialect};
ghost use Rattle.reducer.specs.DirectiveWords.{in_dialect};
ghost use Rattle.reducer.specs.FlatLines.{directives};
ghost use Rattle.reducer.specs.SkipTable.{AreSkips};
ghost use Rattle.reducer.specs.Indexed.{skips_in};

use crate::directive_word::in_dialect;
use crate::flat::LineRecord;
use crate::skip_table::all_skips;
use scan_model::{Dialect, Directive, NoMemory, Skip};
use std::alloc::Global;

/// For each line, where the lines after it lead when it is a conditional whose group isn't taken, and the same in C++20,
/// where that differs. `Err` is want of memory.
pub(crate) fn tables(
    alloc: Global,
    lines: &[LineRecord],
) -> Result<(Vec<Skip>, Option<Vec<Skip>>), NoMemory>
    requires { length lines.now ≤ 33554434 }
    ensures { IfOk result (λ made. (dialect : Dialect) → AreSkips (directives dialect lines.now) (skips_in dialect made.0.items made.1)) }
{
    let newest = directives(alloc, lines, Dialect::Cxx23)?;
    let skips = all_skips(alloc, &newest)?;
    if are_older(&newest) {
        return Ok((skips, None));
    }
    let older = directives(alloc, lines, Dialect::Cxx20)?;
    let older_skips = all_skips(alloc, &older)?;
    Ok((skips, Some(older_skips)))
}

/// The dialect's list of the two.
pub(crate) fn skips_in<'a>(
    dialect: Dialect,
    skips: &'a Vec<Skip>,
    older: &'a Option<Vec<Skip>>,
) -> &'a [Skip]
    ensures { result.now ≡ skips_in dialect skips.now.items older.now }
{
    match (dialect, older) {
        (Dialect::Cxx20, Some(older)) => older.as_slice(),
        _ => skips.as_slice(),
    }
}

// The lines' directives, as the dialect has them.
fn directives(
    alloc: Global,
    lines: &[LineRecord],
    dialect: Dialect,
) -> Result<Vec<Directive>, NoMemory>
    ensures { IfOk result (λ made. made.items ≡ directives dialect lines.now) }
{
    let mut made = Vec::with_capacity(alloc, lines.len())?;
    for line in lines {
        made.push(in_dialect(dialect, line.directive))?;
    }
    Ok(made)
}

// Whether C++20 has the same directives.
fn are_older(directives: &[Directive]) -> bool
    ensures { IsTrue result → map (in_dialect Dialect.Cxx20) directives.now ≡ directives.now }
{
    for directive in directives {
        if is_newest(*directive) {
            return false;
        }
    }
    true
}

fn is_newest(directive: Directive) -> bool
    ensures { IsFalse result → in_dialect Dialect.Cxx20 directive ≡ directive }
{
    matches!(directive, Directive::Elifdef | Directive::Elifndef)
}
