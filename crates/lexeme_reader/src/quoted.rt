ghost use Rattle.std.specs.Prelude.{◌≡◌, ◌≤◌, IsTrue, Some, is_some, length, drop};
ghost use Rattle.std.specs.Bool.{OnTrue, OnFalse};
ghost use Rattle.line_splice.specs.Cursor.{text_of, rest};
ghost use Rattle.scan_model.specs.Spelling.{encoding_len, opens, after_items, after_quoted, is_quoted, longest};
ghost use Rattle.lexeme_reader.specs.Fronts.{line, Along};
ghost use Rattle.lexeme_reader.specs.Quotes.{quote_byte, may_open, IsOpening, encoding_of, opening_of, PassesItems};

use crate::name::pass_name;
use crate::steps::{first_byte, pass_bytes, pass_until, second_if};
use line_splice::Cursor;

/// What a literal without `R` is quoted in.
#[derive(Clone, Copy, PartialEq, Eq)]
pub enum Quote {
    /// `'`, of a character literal.
    Single,
    /// `"`, of a string literal.
    Double,
}

/// How a literal opens, after `u8`, `u`, `U`, `L` or no prefix.
#[derive(Clone, Copy, PartialEq, Eq)]
pub enum Opening {
    /// The quote alone.
    Quoted(Quote),
    /// `R"`.
    Raw,
}

fn quote_byte(quote: Quote) -> u8
    ensures { result ≡ quote_byte quote }
{
    match quote {
        Quote::Single => b'\'',
        Quote::Double => b'"',
    }
}

fn encoding_of(first: u8, second: u8) -> usize
    ensures { result ≡ encoding_of first second }
{
    if (first == b'u') & (second == b'8') {
        2
    } else if (first == b'u') | (first == b'U') | (first == b'L') {
        1
    } else {
        0
    }
}

// How many bytes the prefix takes that says how a literal is encoded, if one stands here.
pub fn encoding_len(at: &Cursor<'_>) -> usize
    ensures len { result ≡ encoding_len (line (rest at.now)) }
    ensures within { result ≤ length (rest at.now) }
{
    let first = first_byte(at);
    encoding_of(first, second_if(at, first == b'u'))
}

// Passes that prefix.
fn pass_encoding(at: &mut Cursor<'_>)
    ensures text { text_of at.new ≡ text_of at.old }
    ensures rest { rest at.new ≡ drop (encoding_len (line (rest at.old))) (rest at.old) }
{
    let len = encoding_len(at);
    pass_bytes(at, len);
}

fn opening_of(first: u8, second: u8) -> Option<Opening>
    ensures { result ≡ opening_of first second }
{
    if first == b'\'' {
        Some(Opening::Quoted(Quote::Single))
    } else if first == b'"' {
        Some(Opening::Quoted(Quote::Double))
    } else if (first == b'R') & (second == b'"') {
        Some(Opening::Raw)
    } else {
        None
    }
}

// Whether a literal may begin with the byte.
fn may_open(byte: u8) -> bool
    ensures { result ≡ may_open byte }
{
    let is_quote = (byte == b'\'') | (byte == b'"');
    is_quote | (byte == b'u') | (byte == b'U') | (byte == b'L') | (byte == b'R')
}

/// How the literal opens that stands here, if one does ([lex.ccon], [lex.string]).
pub fn literal_at(at: &Cursor<'_>) -> Option<Opening>
    ensures { IsOpening result (line (rest at.now)) }
{
    if may_open(first_byte(at)) {
        prefixed_literal_at(at)
    } else {
        None
    }
}

// The same, after a prefix or none.
fn prefixed_literal_at(at: &Cursor<'_>) -> Option<Opening>
    ensures { IsOpening result (line (rest at.now)) }
{
    let mut next = *at;
    pass_encoding(&mut next);
    let first = first_byte(&next);
    opening_of(first, second_if(&next, first == b'R'))
}

// Passes what stands up to the next quote or backslash, if no backslash stands before.
fn pass_inside(at: &mut Cursor<'_>, quote: u8, escaped: bool)
    ensures text { text_of at.new ≡ text_of at.old }
    ensures along { Along (rest at.old) (rest at.new) }
    ensures items { after_items quote escaped (line (rest at.old)) ≡ after_items quote escaped (line (rest at.new)) }
{
    if !escaped {
        pass_until(at, quote);
    }
}

// Passes the items of a literal and the quote that closes it. The answer says whether one does: where none does, the
// rest of the line is passed.
fn pass_items(at: &mut Cursor<'_>, quote: u8) -> bool
    ensures text { text_of at.new ≡ text_of at.old }
    ensures items { PassesItems result quote (rest at.old) (rest at.new) }
{
    let mut escaped = false;
    'items: while let Some(byte) = at.peek() {
        if byte == b'\n' {
            return false;
        }
        at.advance();
        if !escaped & (byte == quote) {
            return true;
        }
        escaped = !escaped & (byte == b'\\');
        pass_inside(at, quote, escaped);
    }
    false
}

/// Passes the literal in these quotes that opens here, with its suffix ([lex.ccon], [lex.string]). The answer says
/// whether it is closed on its line: where it isn't, the rest of the line is passed.
pub fn pass_quoted(at: &mut Cursor<'_>, quote: Quote) -> bool
    requires { IsTrue (opens (quote_byte quote) (line (rest at.old))) }
    ensures text { text_of at.new ≡ text_of at.old }
    ensures value { result ≡ is_some (after_quoted (quote_byte quote) (line (rest at.old))) }
    ensures closed { OnTrue result
        (rest at.new ≡ drop (longest (is_quoted (quote_byte quote)) (line (rest at.old))) (rest at.old)) }
    ensures unclosed { OnFalse result (rest at.new ≡ drop (length (line (rest at.old))) (rest at.old)) }
{
    pass_encoding(at);
    pass_bytes(at, 1);
    let closed = pass_items(at, quote_byte(quote));
    if closed {
        pass_name(at);
    }
    closed
}
