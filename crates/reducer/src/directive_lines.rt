ghost use Rattle.std.specs.Prelude.{◌≡◌, ◌≤◌, nat_eq, [], ◌∷◌, drop};
ghost use lib.Pointwise.{pointwise};
ghost use Rattle.scan_model.specs.Skips.{directive_in};
ghost use Rattle.scan_model.specs.Directives.{directive_of};
ghost use Rattle.scan_model.specs.TokenTests.{is_of};
ghost use Rattle.reducer.specs.Views.{view};
ghost use Rattle.scan_model.specs.Lines.{is_module_line, begins_directive};
ghost use Rattle.reducer.specs.TokenTests.{at_tok};
ghost use Rattle.reducer.specs.Building.{open_toks, IsSound};
ghost use Rattle.reducer.specs.Directives.{begins_with_sharp, makes_import, makes_module, may_begin, is_text};

use crate::TokView;
use crate::directive_word::directive_numbered;
use crate::open_lines::OpenLines;
use scan_model::{Dialect, Directive, Kind};
use word_table::directive_word;

/// Whether the token of this place is there, and spelled so.
pub fn is_word(lines: &OpenLines, i: usize, word: &[u8]) -> bool
    requires { IsSound lines.now }
    ensures { result ≡ at_tok (λ t. pointwise nat_eq word.now t.text) (open_toks lines.now) i }
{
    match lines.get(i) {
        Some(tok) => word == tok.text,
        None => false,
    }
}

// Whether the token of this place makes a directive of an `import` before it: a header, a name or a partition.
fn makes_import(lines: &OpenLines, i: usize) -> bool
    requires { IsSound lines.now }
    ensures { result ≡ at_tok makes_import (open_toks lines.now) i }
{
    match lines.get(i) {
        Some(tok) => {
            matches!(tok.kind, Kind::Header | Kind::Ident | Kind::Str)
                || matches!(tok.text, b"<" | b":")
        }
        None => false,
    }
}

// Whether the token of this place makes a directive of a `module` before it: a name, a partition or the end of the
// statement.
fn makes_module(lines: &OpenLines, i: usize) -> bool
    requires { IsSound lines.now }
    ensures { result ≡ at_tok makes_module (open_toks lines.now) i }
{
    match lines.get(i) {
        Some(tok) => matches!(tok.kind, Kind::Ident) || matches!(tok.text, b":" | b";"),
        None => false,
    }
}

/// Whether the first token is a `#`, or spelled `%:`.
pub fn begins_with_sharp(lines: &OpenLines) -> bool
    requires { IsSound lines.now }
    ensures { result ≡ begins_with_sharp (open_toks lines.now) }
{
    is_word(lines, 0, b"#") || is_word(lines, 0, b"%:")
}

// Whether the tokens from the first or the second on begin a module line.
fn is_module_line(lines: &OpenLines, first: usize) -> bool
    requires sound { IsSound lines.now }
    requires front { first ≤ 1 }
    ensures { result ≡ is_module_line (drop first (open_toks lines.now)) }
{
    (is_word(lines, first, b"import") & makes_import(lines, first + 1))
        | (is_word(lines, first, b"module") & makes_module(lines, first + 1))
}

/// Whether a line of the open tokens is a directive ([cpp.pre]).
pub fn begins_directive(lines: &OpenLines) -> bool
    requires { IsSound lines.now }
    ensures { result ≡ begins_directive (open_toks lines.now) }
{
    if begins_with_sharp(lines) {
        return true;
    }
    is_module_line(lines, 0) | (is_word(lines, 0, b"export") & is_module_line(lines, 1))
}

// Whether further tokens may make a directive of these, which are none by themselves.
fn may_begin(lines: &OpenLines) -> bool
    requires { IsSound lines.now }
    ensures { result ≡ may_begin (open_toks lines.now) }
{
    match lines.count() {
        0 => true,
        1 => {
            is_word(lines, 0, b"import")
                | is_word(lines, 0, b"module")
                | is_word(lines, 0, b"export")
        }
        2 => {
            is_word(lines, 0, b"export")
                & (is_word(lines, 1, b"import") | is_word(lines, 1, b"module"))
        }
        _ => false,
    }
}

/// Whether a line with these first tokens is no directive, whatever follows.
pub fn is_text(lines: &OpenLines) -> bool
    requires { IsSound lines.now }
    ensures { result ≡ is_text (open_toks lines.now) }
{
    !begins_directive(lines) && !may_begin(lines)
}

/// What a line of the open tokens asks for in C++23; nothing where it doesn't begin with `#` ([cpp.pre]).
pub fn line_directive(lines: &OpenLines) -> Directive
    requires { IsSound lines.now }
    ensures { result ≡ directive_in Dialect.Cxx23 (open_toks lines.now) }
{
    if !begins_with_sharp(lines) {
        return Directive::Nothing;
    }
    match lines.get(1) {
        Some(word) => directive_of(word),
        None => Directive::Nothing,
    }
}

// What a line asks for whose first token after `#` is this one.
fn directive_of(word: TokView<'_>) -> Directive
    ensures { result ≡ directive_of Dialect.Cxx23 (view word.entry ∷ []) }
{
    if is_number(word) {
        return Directive::Nothing;
    }
    directive_numbered(directive_word(word.text))
}

fn is_number(tok: TokView<'_>) -> bool
    ensures { result ≡ is_of Kind.Number (view tok.entry) }
{
    matches!(tok.kind, Kind::Number)
}
