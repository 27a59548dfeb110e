ghost use Rattle.std.specs.Prelude.{◌≡◌, ◌<◌, ◌≤◌, nat_lt, length, drop, take, IsTrue};
ghost use Rattle.std.specs.List.{list_all};
ghost use Rattle.std.specs.Char.{encode_utf8};
ghost use Rattle.line_splice.specs.Cursor.{text_of, rest};
ghost use Rattle.scan_model.specs.Spelling.{is_start, is_continue, is_name, longest};
ghost use Rattle.scan_model.specs.Tokens.{bytes};
ghost use Rattle.lexeme_reader.specs.Character.{BeginsWith};
ghost use Rattle.lexeme_reader.specs.Fronts.{line};
ghost use Rattle.lexeme_reader.specs.Names.{is_word_byte, PassesWord, PassesName};
ghost use Rattle.lexeme_reader.specs.Passes.{PassesRun};

use crate::character::{character, pass_found};
use line_splice::Cursor;
use unicode_ident::{is_xid_continue, is_xid_start};

// Whether a name may begin with the character ([lex.name]).
#[tactic(auto, unfolding(scan_model::specs::Spelling::is_start))]
fn is_start(found: char) -> bool
    ensures { result ≡ is_start found }
{
    if found.is_ascii() {
        found.is_ascii_alphabetic() | (found == '_') | (found == '$')
    } else {
        is_xid_start(found) | (found == '_') | (found == '$')
    }
}

// Whether a name may go on with the character.
#[tactic(auto, unfolding(scan_model::specs::Spelling::is_continue))]
pub fn is_continue(found: char) -> bool
    ensures { result ≡ is_continue found }
{
    if found.is_ascii() {
        found.is_ascii_alphanumeric() | (found == '_') | (found == '$')
    } else {
        is_xid_continue(found) | (found == '_') | (found == '$')
    }
}

/// Whether a name stands here ([lex.name]): a character of XID_Start, `_` or `$`.
pub fn begins_name(at: &Cursor<'_>) -> bool
    ensures { result ≡ nat_lt 0 (longest is_name (line (rest at.now))) }
{
    match character(at) {
        Some(found) => is_start(found),
        None => false,
    }
}

// Whether a name may go on with the byte, which is a character by itself.
fn is_word_byte(byte: u8) -> bool
    ensures { result ≡ is_word_byte byte }
{
    byte < 128 && is_continue(char::from(byte))
}

// How many such bytes the text begins with.
fn word_len(written: &[u8]) -> usize
    ensures within { result ≤ length written.now }
    ensures all { IsTrue (list_all is_word_byte (take result written.now)) }
{
    for i in 0..written.len() {
        if !is_word_byte(written[i]) {
            return i;
        }
    }
    written.len()
}

// Passes such bytes as they are written, at once.
fn pass_word_bytes(at: &mut Cursor<'_>)
    ensures text { text_of at.new ≡ text_of at.old }
    ensures run { PassesRun is_word_byte (rest at.old) (rest at.new) }
{
    let count = word_len(at.ahead());
    at.pass_plain(count);
}

// Passes the character that stands here, with which a name may go on, and such bytes after it.
fn pass_word(at: &mut Cursor<'_>, found: char)
    requires here { BeginsWith found (bytes (rest at.old)) }
    requires continues { IsTrue (is_continue found) }
    ensures text { text_of at.new ≡ text_of at.old }
    ensures word { PassesWord (rest at.old) (rest at.new) }
{
    pass_found(at, found);
    pass_word_bytes(at);
}

// Passes what may go on with a name.
fn pass_continuing(at: &mut Cursor<'_>)
    ensures text { text_of at.new ≡ text_of at.old }
    ensures name { PassesName (rest at.old) (rest at.new) }
{
    'name: while let Some(found) = character(at) {
        if !is_continue(found) {
            break;
        }
        pass_word(at, found);
    }
}

/// Passes the name that stands here, or nothing where none does ([lex.name]). No newline is in a name, so the whole of
/// what is left has the same name in front as its line.
pub fn pass_name(at: &mut Cursor<'_>)
    ensures text { text_of at.new ≡ text_of at.old }
    ensures rest { rest at.new ≡ drop (longest is_name (line (rest at.old))) (rest at.old) }
    ensures whole { rest at.new ≡ drop (longest is_name (bytes (rest at.old))) (rest at.old) }
{
    if let Some(found) = character(at) {
        if is_start(found) {
            pass_found(at, found);
            pass_continuing(at);
        }
    }
}
