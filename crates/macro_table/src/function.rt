ghost use Rattle.std.specs.Prelude.{◌≡◌, IfOk, Some};
ghost use Rattle.std.specs.Option.{option_and_then};
ghost use Rattle.scan_model.specs.MacroDefinition as definition;
ghost use Rattle.macro_table.specs.Definition.{is_function};
ghost use Rattle.macro_table.specs.Heads.{text};

use crate::copies::{copied_names, copied_tokens};
use crate::head::{Head, read_head};
use crate::names::{all_names, distinct_names};
use crate::replacement::{fits, has_operands};
use scan_model::{Bytes, Def, FunctionDef, NoMemory, Tok};
use std::alloc::Global;

/// What stands after the `(` of a function-like macro. None exactly where it breaks a rule of [cpp.replace],
/// [cpp.subst], [cpp.stringize] or [cpp.concat].
pub(crate) fn read_function(alloc: Global, toks: &[Tok]) -> Result<Option<Def>, NoMemory>
    ensures { IfOk result (λ def. def ≡ option_and_then definition.function_def (definition.head toks.now)) }
{
    let Some(head) = read_head(alloc, toks)? else {
        return Ok(None);
    };
    if !head_fits(alloc, &head)? {
        return Ok(None);
    }
    Ok(Some(Def::Function(copied_function(alloc, &head)?)))
}

/// Whether the parameters are distinct, and the replacement list goes by its rules.
fn head_fits(alloc: Global, head: &Head<'_>) -> Result<bool, NoMemory>
    ensures { IfOk result (λ fits. fits ≡ is_function head.now.params head.now.variadic head.now.body) }
{
    if !has_operands(head.body) {
        return Ok(false);
    }
    let names = all_names(alloc, head)?;
    match distinct_names(alloc, names.as_slice())? {
        Some(set) => Ok(fits(&set, head.variadic.is_some(), head.body)),
        None => Ok(false),
    }
}

fn copied_function(alloc: Global, head: &Head<'_>) -> Result<FunctionDef, NoMemory>
    ensures { IfOk result (λ f. f ≡ record { params = head.now.params; variadic = head.now.variadic; body = head.now.body }) }
{
    Ok(FunctionDef {
        params: copied_names(alloc, head.params.as_slice())?,
        variadic: copied_name(alloc, head.variadic)?,
        body: copied_tokens(alloc, head.body)?,
    })
}

fn copied_name(alloc: Global, name: Option<&[u8]>) -> Result<Option<Bytes>, NoMemory>
    ensures { IfOk result (λ copy. copy ≡ text name.entry) }
{
    match name {
        Some(name) => Ok(Some(Bytes::copy(alloc, name)?)),
        None => Ok(None),
    }
}
