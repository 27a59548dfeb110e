ghost use Rattle.std.specs.Prelude.{◌≡◌, ◌<◌, ◌≤◌, ◌^◌, ℕ, List, Some, length, IfSome, MatchOption};
ghost use Rattle.scan_model.specs.Spelling.{encoding_len};
ghost use Rattle.scan_model.specs.Literals.{extended, plain_char, wide_char, char_value};
ghost use Rattle.if_values.specs.Characters.{characters, values, literal_bits};

use crate::arithmetic::signed;
use crate::digits::{after, byte_at};
use crate::escapes::character;
use scan_model::CondValue;

/// The values of a literal's characters, at most four.
#[derive(Clone, Copy)]
struct Values {
    bytes: [u8; 4],
    count: usize,
}

// The characters up to the quote, which must end the text. None exactly where one of them is bad, where there are more
// than four, and where the quote is missing or something follows it.
fn characters(text: &[u8]) -> Option<Values>
    ensures few { IfSome result (λ found. found.count ≤ 4) }
    ensures read { MatchOption result ((cs : List ℕ) → characters text.now ≡ Some cs → 4 < length cs) (λ found. characters text.now ≡ Some (values found)) }
{
    let mut bytes = [0; 4];
    let mut count = 0;
    let mut rest = text;
    'characters: while byte_at(rest, 0) != b'\'' {
        if rest.is_empty() {
            return None;
        }
        let found = character(rest)?;
        if count == 4 {
            return None;
        }
        bytes[count] = found.value;
        count += 1;
        rest = found.after;
    }
    if rest.len() == 1 {
        Some(Values { bytes, count })
    } else {
        None
    }
}

// The bits of a literal with no prefix: one signed byte, or up to four bytes joined to 32 signed bits.
fn plain_char(values: &[u8]) -> Option<u64>
    ensures { result ≡ plain_char values.now }
{
    match values {
        [a] => Some(extended(8, *a as u64)),
        [a, b] => Some(extended(32, *a as u64 * 256 + *b as u64)),
        [a, b, c] => Some(extended(32, (*a as u64 * 256 + *b as u64) * 256 + *c as u64)),
        [a, b, c, d] => Some(extended(
            32,
            ((*a as u64 * 256 + *b as u64) * 256 + *c as u64) * 256 + *d as u64,
        )),
        _ => None,
    }
}

// A number of so many bits in two's complement, as one of 64 bits.
fn extended(width: u64, number: u64) -> u64
    requires width { 0 < width }
    requires few { width < 64 }
    requires within { number < 2 ^ width }
    ensures { result ≡ extended width number }
{
    if number < 1 << (width - 1) {
        number
    } else {
        0u64.wrapping_sub((1 << width) - number)
    }
}

// The value of a literal with a prefix: of exactly one character, and not negative.
fn wide_char(values: &[u8]) -> Option<u64>
    ensures { result ≡ wide_char values.now }
{
    match values {
        [byte] => Some(*byte as u64),
        _ => None,
    }
}

// How many bytes the encoding's prefix takes.
fn encoding_len(text: &[u8]) -> usize
    ensures { result ≡ encoding_len text.now }
{
    if text.starts_with(b"u8") {
        return 2;
    }
    match byte_at(text, 0) {
        b'u' | b'U' | b'L' => 1,
        _ => 0,
    }
}

// The bits of a literal whose encoding's prefix has this length.
fn literal_bits(prefix: usize, values: &[u8]) -> Option<u64>
    ensures { result ≡ literal_bits prefix values.now }
{
    if prefix == 0 {
        plain_char(values)
    } else {
        wide_char(values)
    }
}

/// The value of a character literal ([lex.ccon]), which is signed. None exactly where it has none: for no character or
/// too many, a bad escape, a byte over 127 as written, and a suffix.
pub(crate) fn character_value(text: &[u8]) -> Option<CondValue>
    ensures { result ≡ char_value text.now }
{
    let prefix = encoding_len(text);
    let found = characters(after(text, prefix + 1))?;
    let bits = literal_bits(prefix, &found.bytes[..found.count])?;
    Some(signed(bits))
}
