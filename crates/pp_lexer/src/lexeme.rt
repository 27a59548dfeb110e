ghost use Rattle.std.specs.Prelude.{◌≡◌, ◌<◌, ◌&&◌, nat_lt, List, length, drop, IsTrue, IsFalse};
ghost use Rattle.line_splice.specs.Cursor.{text_of, rest};
ghost use Rattle.lexeme_reader.specs.Fronts.{line};
ghost use Rattle.lexeme_reader.specs.Quotes.{quote_byte, other_quote};
ghost use Rattle.scan_model.specs.declared.token.Tok.{Tok};
ghost use Rattle.scan_model.specs.Spelling.{is_header, opens, opens_raw, longest};
ghost use Rattle.scan_model.specs.Tokens.{wants_header, raw_lexeme, lexeme};
ghost use Rattle.pp_lexer.specs.Classes.{told_kind, found_of, HasPassed};
ghost use Rattle.pp_lexer.specs.Reads.{GivesShown, IsAhead, NoHeader, not_raw};
ghost use Rattle.pp_lexer.specs.Lexemes.{literal_kind, is_raw, quote_of, IsQuoteAt, IsSpelled, GivesLexeme};

use crate::class::{Class, Passed, told_kind};
use crate::unquoted::pass_unquoted;
use lexeme_reader::{
    Opening, Quote, RawParts, RawSpelling, literal_at, pass_header, pass_quoted, pass_raw,
};
use line_splice::Cursor;
use scan_model::Kind;

/// How a token that a cursor has passed is spelled.
#[derive(Clone, Copy)]
pub enum Spelling<'a> {
    /// By all bytes that show between where the cursor stood and where it stands.
    Shown,
    /// As a raw string, whose inside is spelled as it is written.
    Raw(RawParts<'a>),
}

/// A token that a cursor has passed.
#[derive(Clone, Copy)]
pub struct Found<'a> {
    pub kind: Kind,
    pub spelling: Spelling<'a>,
}

fn shown<'a>(kind: Kind) -> Found<'a>
    ensures kind { result.kind ≡ kind }
    ensures spelling { result.spelling ≡ Spelling.Shown }
{
    Found {
        kind,
        spelling: Spelling::Shown,
    }
}

// Passes the header name that stands here, where one is tried.
fn pass_wanted_header(at: &mut Cursor<'_>, wants: bool) -> bool
    ensures text { text_of at.new ≡ text_of at.old }
    ensures value { result ≡ (wants && nat_lt 0 (longest is_header (line (rest at.old)))) }
    ensures header { IsTrue result → rest at.new ≡ drop (longest is_header (line (rest at.old))) (rest at.old) }
    ensures none { IsFalse result → rest at.new ≡ rest at.old }
{
    if wants { pass_header(at) } else { false }
}

fn literal_kind(quote: Quote, closed: bool) -> Kind
    ensures { result ≡ literal_kind quote closed }
{
    match quote {
        _ if !closed => Kind::Stray,
        Quote::Single => Kind::Char,
        Quote::Double => Kind::Str,
    }
}

// Passes the literal that opens here in these quotes, or the rest of its line where it isn't closed on it.
fn pass_literal(at: &mut Cursor<'_>, quote: Quote) -> Kind
    requires some { 0 < length (line (rest at.old)) }
    requires opens { IsTrue (opens (quote_byte quote) (line (rest at.old))) }
    requires other { IsFalse (opens (quote_byte (other_quote quote)) (line (rest at.old))) }
    ensures text { text_of at.new ≡ text_of at.old }
    ensures ahead { IsAhead (rest at.old) (rest at.new) }
    ensures lexeme { GivesShown (not_raw (rest at.old)) result (rest at.old) (rest at.new) }
{
    let closed = pass_quoted(at, quote);
    literal_kind(quote, closed)
}

fn is_raw(opening: Option<Opening>) -> bool
    ensures { result ≡ is_raw opening }
{
    match opening {
        Some(Opening::Raw) => true,
        Some(Opening::Quoted(_)) => false,
        None => false,
    }
}

fn quote_of(opening: Option<Opening>) -> Option<Quote>
    ensures { result ≡ quote_of opening }
{
    match opening {
        Some(Opening::Quoted(quote)) => Some(quote),
        Some(Opening::Raw) => None,
        None => None,
    }
}

// Passes the token that stands here where no raw string opens, but a literal in these quotes, or none.
fn pass_not_raw(at: &mut Cursor<'_>, quote: Option<Quote>) -> Class
    requires some { 0 < length (line (rest at.old)) }
    requires quote { IsQuoteAt quote (line (rest at.old)) }
    ensures text { text_of at.new ≡ text_of at.old }
    ensures ahead { IsAhead (rest at.old) (rest at.new) }
    ensures lexeme { GivesShown (not_raw (rest at.old)) (told_kind result (rest at.old) (rest at.new)) (rest at.old) (rest at.new) }
{
    match quote {
        Some(quote) => Class::Of(pass_literal(at, quote)),
        None => pass_unquoted(at),
    }
}

// Passes the token that `R"` begins, after a prefix or none.
fn pass_raw_string<'a>(at: &mut Cursor<'a>) -> Found<'a>
    requires some { 0 < length (line (rest at.old)) }
    requires opens { IsTrue (opens_raw (line (rest at.old))) }
    ensures text { text_of at.new ≡ text_of at.old }
    ensures spelling { IsSpelled (text_of at.old) result (rest at.old) (rest at.new) }
    ensures lexeme { GivesLexeme (text_of at.old) (raw_lexeme (text_of at.old) (rest at.old)) result (rest at.old) (rest at.new) }
{
    match pass_raw(at) {
        RawSpelling::Shown => shown(Kind::Stray),
        RawSpelling::Written(parts) => Found {
            kind: if parts.closed { Kind::Str } else { Kind::Stray },
            spelling: Spelling::Raw(parts),
        },
    }
}

// Passes the token that stands here on a line on which no header name is tried.
pub fn pass_any<'a>(at: &mut Cursor<'a>) -> Passed<'a>
    requires { 0 < length (line (rest at.old)) }
    ensures text { text_of at.new ≡ text_of at.old }
    ensures passed { HasPassed result.class (rest at.old) (rest at.new) }
    ensures spelling { IsSpelled (text_of at.old) (found_of result (rest at.old) (rest at.new)) (rest at.old) (rest at.new) }
    ensures lexeme { (before : List Tok) → NoHeader before (rest at.old)
        → GivesLexeme (text_of at.old) (lexeme (text_of at.old) before (rest at.old)) (found_of result (rest at.old) (rest at.new)) (rest at.old) (rest at.new) }
{
    let opening = literal_at(at);
    if is_raw(opening) {
        let found = pass_raw_string(at);
        return Passed {
            class: Class::Of(found.kind),
            spelling: found.spelling,
        };
    }
    Passed {
        class: pass_not_raw(at, quote_of(opening)),
        spelling: Spelling::Shown,
    }
}

/// Passes the token that stands here after tokens that want a header name next, or don't ([lex.pptoken]). No memory is
/// taken.
pub fn pass_lexeme<'a>(at: &mut Cursor<'a>, wants: bool) -> Found<'a>
    requires { 0 < length (line (rest at.old)) }
    ensures text { text_of at.new ≡ text_of at.old }
    ensures spelling { IsSpelled (text_of at.old) result (rest at.old) (rest at.new) }
    ensures lexeme { (before : List Tok) → wants_header before ≡ wants
        → GivesLexeme (text_of at.old) (lexeme (text_of at.old) before (rest at.old)) result (rest at.old) (rest at.new) }
{
    if pass_wanted_header(at, wants) {
        return shown(Kind::Header);
    }
    let from = *at;
    let passed = pass_any(at);
    Found {
        kind: told_kind(passed.class, &from, at),
        spelling: passed.spelling,
    }
}
