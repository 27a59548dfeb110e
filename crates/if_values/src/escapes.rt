ghost use Rattle.std.specs.Prelude.{◌≡◌, ◌<◌, ◌≤◌, length};
ghost use Rattle.std.specs.List.{prefix_len};
ghost use Rattle.std.specs.Option.{option_map};
ghost use Rattle.scan_model.specs.Literals.{is_hex_digit, up_to_255, digits_escape, octal_len, simple_escape, escape, character};
ghost use Rattle.if_values.specs.Escapes.{found_of, numeric_escape};

use crate::digits::{after, byte_at, number, plain_digits_len};

/// The value of one character, and what follows its spelling.
#[derive(Clone, Copy)]
pub(crate) struct Found<'a> {
    pub value: u8,
    pub after: &'a [u8],
}

fn up_to_255(number: u64, after: &[u8]) -> Option<Found<'_>>
    ensures { option_map found_of result ≡ up_to_255 number after.now }
{
    if number <= 255 {
        Some(Found {
            value: number as u8,
            after,
        })
    } else {
        None
    }
}

// An escape of so many digits in front; none where there are no digits, or where the number is over 255.
fn digits_escape(base: u64, count: usize, text: &[u8]) -> Option<Found<'_>>
    requires base { 0 < base }
    requires within { count ≤ length text.now }
    ensures { option_map found_of result ≡ digits_escape base count text.now }
{
    if count == 0 {
        return None;
    }
    let (digits, after) = text.split_at(count);
    match number(base, digits) {
        Some(number) => up_to_255(number, after),
        None => None,
    }
}

fn hex_len(text: &[u8]) -> usize
    ensures value { result ≡ prefix_len is_hex_digit text.now }
    ensures within { result ≤ length text.now }
{
    plain_digits_len(16, text)
}

// At most three octal digits make one escape.
fn octal_len(text: &[u8]) -> usize
    ensures value { result ≡ octal_len text.now }
    ensures within { result ≤ length text.now }
{
    if text.len() < 3 {
        plain_digits_len(8, text)
    } else {
        plain_digits_len(8, &text[..3])
    }
}

fn simple_escape(byte: u8) -> Option<u8>
    ensures { result ≡ simple_escape byte }
{
    match byte {
        b'\'' | b'"' | b'?' | b'\\' => Some(byte),
        b'a' => Some(7),
        b'b' => Some(8),
        b'f' => Some(12),
        b'n' => Some(10),
        b'r' => Some(13),
        b't' => Some(9),
        b'v' => Some(11),
        _ => None,
    }
}

// What follows a backslash ([lex.ccon]).
fn escape(text: &[u8]) -> Option<Found<'_>>
    ensures { option_map found_of result ≡ escape text.now }
{
    match simple_escape(byte_at(text, 0)) {
        Some(value) => Some(Found {
            value,
            after: after(text, 1),
        }),
        None => numeric_escape(text),
    }
}

fn numeric_escape(text: &[u8]) -> Option<Found<'_>>
    ensures { option_map found_of result ≡ numeric_escape text.now }
{
    if byte_at(text, 0) == b'x' {
        let digits = after(text, 1);
        digits_escape(16, hex_len(digits), digits)
    } else {
        digits_escape(8, octal_len(text), text)
    }
}

/// The character that stands in front. None exactly for a bad escape and for a byte over 127.
pub(crate) fn character(text: &[u8]) -> Option<Found<'_>>
    ensures { option_map found_of result ≡ character text.now }
{
    let first = byte_at(text, 0);
    if first == b'\\' {
        escape(after(text, 1))
    } else if first < 128 {
        Some(Found {
            value: first,
            after: after(text, 1),
        })
    } else {
        None
    }
}
