ghost use Rattle.std.specs.Prelude.{◌≡◌, ◌<◌, ◌≤◌, Some, length, drop, MatchOption};
ghost use Rattle.std.specs.Char.{encode_utf8};
ghost use Rattle.std.specs.Str.{IsUtf8};
ghost use Rattle.line_splice.specs.Cursor.{text_of, rest};
ghost use Rattle.scan_model.specs.Spliced.{byte_at};
ghost use Rattle.scan_model.specs.Tokens.{bytes};
ghost use Rattle.lexeme_reader.specs.Fronts.{line, character_len};
ghost use Rattle.lexeme_reader.specs.Character.{may_lead, may_begin, BeginsWith, NoCharacter};

use crate::steps::pass_bytes;
use line_splice::Cursor;

// The first character of bytes that are text.
fn first_of(bytes: &[u8]) -> Option<char>
    requires { 0 < length bytes.now }
    ensures { MatchOption result (¬ IsUtf8 bytes.now) (λ c. BeginsWith c bytes.now) }
{
    match str::from_utf8(bytes) {
        Ok(text) => text.chars().next(),
        Err(_) => None,
    }
}

// The character that stands here, where it is told by its bytes up to the fourth.
fn encoded_character(at: &Cursor<'_>) -> Option<char>
    ensures { MatchOption result (NoCharacter (bytes (rest at.now)))
        (λ c. BeginsWith c (bytes (rest at.now))) }
{
    let mut next = *at;
    let mut buffer = [0u8; 4];
    for len in 0..4usize {
        let Some(byte) = next.peek() else {
            return None;
        };
        buffer[len] = byte;
        next.advance();
        if let Some(found) = first_of(&buffer[..len + 1]) {
            return Some(found);
        }
    }
    None
}

// Whether a character of more than one byte may begin with the byte.
fn may_lead(first: u8) -> bool
    ensures { result ≡ may_lead first }
{
    (first >= 0xC2) & (first <= 0xF4)
}

// Whether one may begin with these two bytes.
fn may_begin(first: u8, second: u8) -> bool
    ensures { result ≡ may_begin first second }
{
    may_lead(first) & ((second >= 0x80) & (second <= 0xBF))
}

// The character of more than one byte that stands here, if one does: most bytes that begin none are told by the one that
// follows.
fn long_character(at: &Cursor<'_>, first: u8) -> Option<char>
    requires here { byte_at (rest at.now) ≡ Some first }
    requires long { 128 ≤ first }
    ensures { MatchOption result (NoCharacter (bytes (rest at.now)))
        (λ c. BeginsWith c (bytes (rest at.now))) }
{
    if !may_lead(first) {
        return None;
    }
    let mut next = *at;
    next.advance();
    let second = next.peek().unwrap_or(0);
    if !may_begin(first, second) {
        return None;
    }
    encoded_character(at)
}

// The character that stands here, if one does. Most are a byte below 128, which is one by itself.
pub fn character(at: &Cursor<'_>) -> Option<char>
    ensures { MatchOption result (NoCharacter (bytes (rest at.now)))
        (λ c. BeginsWith c (bytes (rest at.now))) }
{
    match at.peek() {
        Some(byte) => {
            if byte < 128 {
                Some(char::from(byte))
            } else {
                long_character(at, byte)
            }
        }
        None => None,
    }
}

// Passes the character that stands here.
pub fn pass_found(at: &mut Cursor<'_>, found: char)
    requires { BeginsWith found (bytes (rest at.old)) }
    ensures text { text_of at.new ≡ text_of at.old }
    ensures rest { rest at.new ≡ drop (length (encode_utf8 found)) (rest at.old) }
{
    pass_bytes(at, found.len_utf8());
}

// How many bytes the character takes that stands here, or 1 where none does.
fn character_len(at: &Cursor<'_>) -> usize
    requires { 0 < length (line (rest at.now)) }
    ensures len { result ≡ character_len (line (rest at.now)) }
    ensures within { result ≤ length (rest at.now) }
{
    match character(at) {
        Some(found) => found.len_utf8(),
        None => 1,
    }
}

/// Passes the character of well-formed UTF-8 that stands here, or the one byte where none does. Something has to be
/// left on the line.
pub fn pass_character(at: &mut Cursor<'_>)
    requires { 0 < length (line (rest at.old)) }
    ensures text { text_of at.new ≡ text_of at.old }
    ensures rest { rest at.new ≡ drop (character_len (line (rest at.old))) (rest at.old) }
{
    let len = character_len(at);
    pass_bytes(at, len);
}
