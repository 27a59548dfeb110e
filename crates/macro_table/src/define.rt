ghost use Rattle.std.specs.Prelude.{◌≡◌, ◌&&◌, not, IfOk};
ghost use Rattle.std.specs.Result.{result_ok};
ghost use Rattle.scan_model.specs.MacroDefinition as definition;
ghost use Rattle.scan_model.specs.TokenTests.{begins_with, is_open_paren};
ghost use Rattle.macro_table.specs.Definition.{IsDefinition, is_name};

use crate::copies::copied_tokens;
use crate::function::read_function;
use crate::replacement::has_operands;
use crate::token_tests::is_forbidden;
use scan_model::{Bytes, Def, NoMemory, Tok};
use std::alloc::Global;

/// Tokens that define no macro.
#[derive(Clone, Copy, Debug, PartialEq, Eq)]
pub struct BadDefine;

/// Reads the tokens after `define`: a name and what it is defined as ([cpp.replace]).
///
/// They define nothing exactly where
/// - the first is no identifier, or a name that no macro may have;
/// - a `(` directly after the name begins no parameter list of distinct identifiers, with `...` or `name...` last or
///   without;
/// - a variadic macro has `__VA_OPT__` as a parameter or as its variable part, or `__VA_ARGS__` before a `...` alone;
/// - `##` begins or ends the replacement list or the content of a `__VA_OPT__`;
/// - `#` stands in a function-like macro before neither a parameter nor, in a variadic one, `__VA_OPT__`;
/// - `__VA_OPT__` in a variadic macro isn't followed by its content in parentheses, or stands in another's.
pub fn read_define(alloc: Global, toks: &[Tok]) -> Result<Result<(Bytes, Def), BadDefine>, NoMemory>
    ensures value { IfOk result (λ defined. result_ok defined ≡ definition.read_define toks.now) }
    ensures sound { IfOk result (λ defined. IfOk defined (λ d. IsDefinition d.0 d.1)) }
{
    if !begins_with_name(toks) {
        return Ok(Err(BadDefine));
    }
    match read_definition(alloc, &toks[1..])? {
        Some(def) => Ok(Ok((Bytes::copy(alloc, toks[0].text.as_slice())?, def))),
        None => Ok(Err(BadDefine)),
    }
}

/// Whether an identifier that a macro may have as its name comes first.
fn begins_with_name(toks: &[Tok]) -> bool
    ensures { result ≡ begins_with is_name toks.now }
{
    !toks.is_empty() && toks[0].is_ident() && !is_forbidden(toks[0].text.as_slice())
}

/// What follows a macro's name.
fn read_definition(alloc: Global, toks: &[Tok]) -> Result<Option<Def>, NoMemory>
    ensures { IfOk result (λ def. def ≡ definition.def_of toks.now) }
{
    if begins_params(toks) {
        return read_function(alloc, &toks[1..]);
    }
    if !has_operands(toks) {
        return Ok(None);
    }
    Ok(Some(Def::Object(copied_tokens(alloc, toks)?)))
}

/// Whether a `(` with no space before it comes next.
fn begins_params(toks: &[Tok]) -> bool
    ensures { result ≡ begins_with (λ t. is_open_paren t && not t.space) toks.now }
{
    !toks.is_empty() && toks[0].is_open_paren() && !toks[0].space
}
