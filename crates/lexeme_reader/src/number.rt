ghost use Rattle.std.specs.Prelude.{◌≡◌, ◌<◌, ◌||◌, ◌==◌, ℕ, nat_lt, List, length, drop, MatchOption};
ghost use Rattle.std.specs.Char.{is_ascii_alphanumeric};
ghost use Rattle.line_splice.specs.Cursor.{text_of, rest};
ghost use Rattle.scan_model.specs.Spliced.{Spot};
ghost use Rattle.scan_model.specs.Spelling.{is_exponent, goes_on, is_number, longest};
ghost use Rattle.scan_model.specs.Tokens.{bytes};
ghost use Rattle.lexeme_reader.specs.Character.{BeginsWith};
ghost use Rattle.lexeme_reader.specs.Fronts.{line};
ghost use Rattle.lexeme_reader.specs.Numbers.{PassesNumber, GoesOn, StopsNumber};

use crate::character::{character, pass_found};
use crate::name::is_continue;
use line_splice::Cursor;

fn is_exponent(found: char) -> bool
    ensures { result ≡ is_exponent found }
{
    (found == 'e') | (found == 'E') | (found == 'p') | (found == 'P')
}

// Whether a number may go on with the character after the character `before`, whatever follows.
fn goes_on(before: char, found: char) -> bool
    ensures { result ≡ goes_on before found 0 }
{
    let is_sign = (found == '+') | (found == '-');
    is_continue(found) | (found == '.') | (is_sign & is_exponent(before))
}

// Whether `'` may separate the character from what stands before.
fn is_separated(found: char) -> bool
    ensures { result ≡ (is_ascii_alphanumeric found || found == 95) }
{
    found.is_ascii_alphanumeric() | (found == '_')
}

// Passes the `'` that stands here with the character that it separates, and gives that. Nothing is passed where it
// separates none.
fn pass_separated(at: &mut Cursor<'_>) -> Option<char>
    requires { BeginsWith 39 (bytes (rest at.old)) }
    ensures text { text_of at.new ≡ text_of at.old }
    ensures goes { (before : ℕ) → MatchOption result
        (StopsNumber before (bytes (rest at.old)) × (rest at.new ≡ rest at.old))
        (λ after. GoesOn before after (rest at.old) (rest at.new)) }
{
    let mut next = *at;
    pass_found(&mut next, '\'');
    match character(&next) {
        Some(found) => {
            if !is_separated(found) {
                return None;
            }
            pass_found(&mut next, found);
            *at = next;
            Some(found)
        }
        None => None,
    }
}

// Passes what goes on with a number after the character `before`, and gives its last character.
fn pass_in_number(at: &mut Cursor<'_>, before: char) -> Option<char>
    ensures text { text_of at.new ≡ text_of at.old }
    ensures goes { MatchOption result
        (StopsNumber before (bytes (rest at.old)) × (rest at.new ≡ rest at.old))
        (λ after. GoesOn before after (rest at.old) (rest at.new)) }
{
    match character(at) {
        Some(found) => {
            if found == '\'' {
                return pass_separated(at);
            }
            if !goes_on(before, found) {
                return None;
            }
            pass_found(at, found);
            Some(found)
        }
        None => None,
    }
}

// Passes the dot that stands here with the digit that follows, and gives that. Nothing is passed where none does.
fn pass_dotted(at: &mut Cursor<'_>) -> Option<char>
    requires { BeginsWith 46 (bytes (rest at.old)) }
    ensures text { text_of at.new ≡ text_of at.old }
    ensures start { MatchOption result
        ((longest is_number (line (rest at.old)) ≡ 0) × (rest at.new ≡ rest at.old))
        (λ digit. PassesNumber digit (rest at.old) (rest at.new)) }
{
    let mut next = *at;
    pass_found(&mut next, '.');
    match character(&next) {
        Some(found) => {
            if !found.is_ascii_digit() {
                return None;
            }
            pass_found(&mut next, found);
            *at = next;
            Some(found)
        }
        None => None,
    }
}

// Passes the digit, or the dot and the digit, that begin a number, and gives the digit.
fn pass_number_start(at: &mut Cursor<'_>) -> Option<char>
    ensures text { text_of at.new ≡ text_of at.old }
    ensures start { MatchOption result
        ((longest is_number (line (rest at.old)) ≡ 0) × (rest at.new ≡ rest at.old))
        (λ digit. PassesNumber digit (rest at.old) (rest at.new)) }
{
    match character(at) {
        Some(found) => {
            if found == '.' {
                return pass_dotted(at);
            }
            if !found.is_ascii_digit() {
                return None;
            }
            pass_found(at, found);
            Some(found)
        }
        None => None,
    }
}

/// Whether a number stands here ([lex.ppnumber]): a digit, or a dot and a digit.
pub fn begins_number(at: &Cursor<'_>) -> bool
    ensures { result ≡ nat_lt 0 (longest is_number (line (rest at.now))) }
{
    let mut next = *at;
    match pass_number_start(&mut next) {
        Some(_) => true,
        None => false,
    }
}

/// Passes the number that stands here, or nothing where none does ([lex.ppnumber]).
pub fn pass_number(at: &mut Cursor<'_>)
    ensures text { text_of at.new ≡ text_of at.old }
    ensures rest { rest at.new ≡ drop (longest is_number (line (rest at.old))) (rest at.old) }
{
    if let Some(digit) = pass_number_start(at) {
        pass_number_from(at, digit);
    }
}

// Passes what goes on with a number that ends in the character `before`.
fn pass_number_from(at: &mut Cursor<'_>, mut before: char)
    ensures text { text_of at.new ≡ text_of at.old }
    ensures whole { (start : List Spot) → PassesNumber before start (rest at.old)
        → rest at.new ≡ drop (longest is_number (line start)) start }
{
    'number: while let Some(after) = pass_in_number(at, before) {
        before = after;
    }
}
