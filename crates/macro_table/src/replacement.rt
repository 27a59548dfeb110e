ghost use Rattle.std.specs.Prelude.{◌≡◌};
ghost use Rattle.scan_model.specs.MacroDefinition as definition;
ghost use Rattle.scan_model.specs.TokenTests.{begins_with, ends_with, is_paste};
ghost use Rattle.macro_table.specs.Names.{has_name, is_operand_by, fits_by};

use crate::parentheses::inside_parens;
use scan_model::{Tok, has_opt};
use std::collections::HashSet;

/// Whether no `##` begins or ends the tokens ([cpp.concat]).
pub(crate) fn has_operands(toks: &[Tok]) -> bool
    ensures { result ≡ definition.has_operands toks.now }
{
    !(begins_with_paste(toks) || ends_with_paste(toks))
}

fn begins_with_paste(toks: &[Tok]) -> bool
    ensures { result ≡ begins_with is_paste toks.now }
{
    !toks.is_empty() && toks[0].is_paste()
}

fn ends_with_paste(toks: &[Tok]) -> bool
    ensures { result ≡ ends_with is_paste toks.now }
{
    !toks.is_empty() && toks[toks.len() - 1].is_paste()
}

/// Whether each `#` stands before what it may make a string of, and each `__VA_OPT__` of a list with a variable part is
/// followed by its content ([cpp.stringize], [cpp.subst]). `names` are those of all parameters.
pub(crate) fn fits(names: &HashSet<&[u8]>, is_variadic: bool, toks: &[Tok]) -> bool
    ensures { result ≡ fits_by (has_name names.now.keys) is_variadic toks.now }
{
    if !is_variadic {
        return hashes_fit(names, false, toks);
    }
    hashes_fit(names, true, toks) && opts_fit(toks) && !names.contains(b"__VA_OPT__".as_slice())
}

/// Whether each `#` stands before what it may make a string of.
fn hashes_fit(names: &HashSet<&[u8]>, is_variadic: bool, toks: &[Tok]) -> bool
    ensures { result ≡ definition.hashes_fit (is_operand_by (has_name names.now.keys) is_variadic) toks.now }
{
    for (i, tok) in toks.iter().enumerate() {
        if tok.is_hash() && !begins_with_operand(names, is_variadic, &toks[i + 1..]) {
            return false;
        }
    }
    true
}

fn begins_with_operand(names: &HashSet<&[u8]>, is_variadic: bool, toks: &[Tok]) -> bool
    ensures { result ≡ begins_with (is_operand_by (has_name names.now.keys) is_variadic) toks.now }
{
    !toks.is_empty() && is_operand(names, is_variadic, &toks[0])
}

/// Whether `#` may stand before the token: a parameter, or `__VA_OPT__` where there is a variable part.
fn is_operand(names: &HashSet<&[u8]>, is_variadic: bool, tok: &Tok) -> bool
    ensures { result ≡ is_operand_by (has_name names.now.keys) is_variadic tok.now }
{
    tok.is_ident() && names.contains(tok.text.as_slice()) || is_variadic && tok.is_opt()
}

/// Whether each `__VA_OPT__` is followed by its content.
fn opts_fit(toks: &[Tok]) -> bool
    ensures { result ≡ definition.opts_fit toks.now }
{
    for (i, tok) in toks.iter().enumerate() {
        if tok.is_opt() && !opt_fits(&toks[i + 1..]) {
            return false;
        }
    }
    true
}

/// Whether the tokens after a `__VA_OPT__` begin with its content: a balanced list in parentheses, with no `##` at an
/// end and no further `__VA_OPT__`.
fn opt_fits(toks: &[Tok]) -> bool
    ensures { result ≡ definition.opt_fits toks.now }
{
    match inside_parens(toks) {
        Some(content) => has_operands(content) && !has_opt(content),
        None => false,
    }
}
