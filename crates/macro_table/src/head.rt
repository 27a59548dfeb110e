ghost use Rattle.std.specs.Prelude.{◌≡◌, ◌<◌, IfOk, false, length, drop, Some};
ghost use Rattle.std.specs.Option.{option_map};
ghost use Rattle.scan_model.specs.MacroDefinition as definition;
ghost use Rattle.scan_model.specs.TokenTests.{begins_with, is_close_paren};
ghost use Rattle.macro_table.specs.Heads.{goes_on, head_after, texts, text, with_params};

use crate::token_tests::is_ellipsis;
use scan_model::{NoMemory, Tok};
use std::alloc::Global;
use std::marker::Model;

/// The name of a variable part that is written as `...` alone ([cpp.replace]).
const VARIABLE_PART: &[u8] = b"__VA_ARGS__";

/// A parameter list, and the replacement list that follows it ([cpp.replace]).
#[derive(Drop)]
pub(crate) struct Head<'a> {
    /// The parameters before the variable part, in order.
    pub params: Vec<&'a [u8]>,
    /// The name of the variable part.
    pub variadic: Option<&'a [u8]>,
    pub body: &'a [Tok],
}

impl<'a> Model for Head<'a> {
    ghost use Rattle.scan_model.specs.MacroDefinition.{Head};
    ghost use Rattle.macro_table.specs.Heads.{texts, text};

    ghost Value = { Head };

    ghost view = { λ h. record { params = texts h.params.items; variadic = text h.variadic; body = h.body.now } };
}

/// What stands after the `(` of a function-like macro. None exactly where it is no list of identifiers, with `...` or
/// `name...` last or without, that is closed.
pub(crate) fn read_head<'a>(alloc: Global, toks: &'a [Tok]) -> Result<Option<Head<'a>>, NoMemory>
    ensures { IfOk result (λ head. head ≡ definition.head toks.now) }
{
    let params = Vec::new(alloc);
    if begins_with_close(toks) {
        return Ok(Some(Head {
            params,
            variadic: None,
            body: &toks[1..],
        }));
    }
    read_params(params, toks)
}

fn begins_with_close(toks: &[Tok]) -> bool
    ensures { result ≡ begins_with is_close_paren toks.now }
{
    !toks.is_empty() && toks[0].is_close_paren()
}

fn read_params<'a>(params: Vec<&'a [u8]>, toks: &'a [Tok]) -> Result<Option<Head<'a>>, NoMemory>
    ensures { IfOk result (λ head. head ≡ head_after (texts params.entry.items) toks.now) }
{
    let mut params = params;
    let mut rest = toks;
    'params: while goes_on(rest) {
        params.push(rest[0].text.as_slice())?;
        rest = past_param(rest);
    }
    end_params(params, rest)
}

/// Whether a parameter and a comma come next.
fn goes_on(toks: &[Tok]) -> bool
    ensures { result ≡ goes_on toks.now }
{
    toks.len() >= 2 && toks[0].is_ident() && toks[1].is_comma()
}

/// The tokens after a parameter and a comma.
fn past_param(toks: &[Tok]) -> &[Tok]
    requires { 1 < length toks.now }
    ensures { result.now ≡ drop 2 toks.now }
{
    &toks[2..]
}

/// The last of the list: a parameter, `name...` or `...`, and the `)`.
fn end_params<'a>(params: Vec<&'a [u8]>, rest: &'a [Tok]) -> Result<Option<Head<'a>>, NoMemory>
    requires { goes_on rest.now ≡ false }
    ensures { IfOk result (λ head. head ≡ head_after (texts params.entry.items) rest.now) }
{
    if rest.len() < 2 {
        return Ok(None);
    }
    if is_ellipsis(&rest[0]) {
        return Ok(closed(params, VARIABLE_PART, &rest[1..]));
    }
    if !rest[0].is_ident() {
        return Ok(None);
    }
    let name = rest[0].text.as_slice();
    if is_ellipsis(&rest[1]) {
        return Ok(closed(params, name, &rest[2..]));
    }
    if !rest[1].is_close_paren() {
        return Ok(None);
    }
    let mut params = params;
    params.push(name)?;
    Ok(Some(Head {
        params,
        variadic: None,
        body: &rest[2..],
    }))
}

/// A list that ends in its variable part; None where that isn't closed.
fn closed<'a>(params: Vec<&'a [u8]>, name: &'a [u8], rest: &'a [Tok]) -> Option<Head<'a>>
    ensures { result ≡ option_map (with_params (texts params.entry.items)) (definition.variadic_head name.now rest.now) }
{
    if !begins_with_close(rest) {
        return None;
    }
    Some(Head {
        params,
        variadic: Some(name),
        body: &rest[1..],
    })
}
