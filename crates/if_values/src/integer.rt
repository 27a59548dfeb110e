ghost use Rattle.std.specs.Prelude.{◌≡◌, ◌<◌};
ghost use Rattle.scan_model.specs.Literals.{sizes, is_u, is_u_suffix, integer_in, integer_value, integer};
ghost use Rattle.if_values.specs.Digits.{fitting};

use crate::digits::{after, byte_at, digits_len, is_digit, number};
use scan_model::CondValue;

// A suffix that says how long the type is, or no suffix ([lex.icon]).
fn sizes(suffix: &[u8]) -> bool
    ensures { result ≡ sizes suffix.now }
{
    suffix.is_empty() || matches!(suffix, b"l" | b"L" | b"ll" | b"LL" | b"z" | b"Z")
}

fn is_u(byte: u8) -> bool
    ensures { result ≡ is_u byte }
{
    (byte == b'u') | (byte == b'U')
}

// A `u` before or after another suffix, or alone.
fn is_u_suffix(suffix: &[u8]) -> bool
    ensures { result ≡ is_u_suffix suffix.now }
{
    if suffix.is_empty() {
        return false;
    }
    let front = suffix.len() - 1;
    (is_u(suffix[0]) & sizes(&suffix[1..])) | (is_u(suffix[front]) & sizes(&suffix[..front]))
}

fn with_suffix(bits: u64, suffix: &[u8]) -> Option<CondValue>
    ensures { result ≡ integer_value bits suffix.now }
{
    let is_u = is_u_suffix(suffix);
    if is_u | sizes(suffix) {
        Some(CondValue {
            bits,
            unsigned: is_u | (bits >= 1 << 63),
        })
    } else {
        None
    }
}

// Digits of the base, one at least, and a suffix.
fn integer_in(base: u64, text: &[u8]) -> Option<CondValue>
    requires { 0 < base }
    ensures { result ≡ integer_in base text.now }
{
    if !is_digit(base, byte_at(text, 0)) {
        return None;
    }
    let (digits, suffix) = text.split_at(digits_len(base, text));
    match number(base, digits) {
        Some(bits) => with_suffix(bits, suffix),
        None => None,
    }
}

/// The value of an integer literal, unsigned where it has a `u` or is over 2^63 - 1 ([lex.icon]). None exactly where the
/// number has no value: it has another form, such as that of a floating literal, or is over 2^64 - 1.
#[tactic(auto, unfolding(scan_model::specs::Literals::integer))]
pub(crate) fn integer(text: &[u8]) -> Option<CondValue>
    ensures { result ≡ integer text.now }
{
    if byte_at(text, 0) != b'0' {
        return integer_in(10, text);
    }
    let second = byte_at(text, 1);
    if (second == b'x') | (second == b'X') {
        integer_in(16, after(text, 2))
    } else if (second == b'b') | (second == b'B') {
        integer_in(2, after(text, 2))
    } else {
        integer_in(8, text)
    }
}
