ghost use Rattle.std.specs.Prelude.{◌≡◌, ◌<◌, ◌≤◌, Some, None, if◌then◌else◌, slice_index, drop, length, ◌*◌, ◌+◌};
ghost use Rattle.std.specs.List.{prefix_len};
ghost use Rattle.scan_model.specs.Literals.{digit_value, is_digit, digits_len, number_of};
ghost use Rattle.if_values.specs.Digits.{goes_on, fitting};

/// The byte at this place, and 0 past the end.
pub(crate) fn byte_at(text: &[u8], place: usize) -> u8
    ensures { result ≡ slice_index text.now place }
{
    if place < text.len() { text[place] } else { 0 }
}

/// What follows the first bytes, and nothing past the end.
pub(crate) fn after(text: &[u8], count: usize) -> &[u8]
    ensures { result.now ≡ drop count text.now }
{
    if count < text.len() {
        &text[count..]
    } else {
        &[]
    }
}

/// The value of a digit of this base, in either case; None exactly where the byte is none.
pub(crate) fn digit(base: u64, byte: u8) -> Option<u64>
    ensures { result ≡ (if is_digit base byte then Some (digit_value byte) else None) }
{
    let value = match byte {
        b'0'..=b'9' => byte - b'0',
        b'a'..=b'f' => byte - b'a' + 10,
        b'A'..=b'F' => byte - b'A' + 10,
        _ => return None,
    };
    if (value as u64) < base {
        Some(value as u64)
    } else {
        None
    }
}

pub(crate) fn is_digit(base: u64, byte: u8) -> bool
    ensures { result ≡ is_digit base byte }
{
    digit(base, byte).is_some()
}

fn goes_on(base: u64, text: &[u8]) -> bool
    ensures { result ≡ goes_on base text.now }
{
    if text.is_empty() {
        return false;
    }
    is_digit(base, text[0]) | ((text[0] == b'\'') & is_digit(base, byte_at(text, 1)))
}

/// How many bytes in front are digits of this base, a single `'` between two of them counted too ([lex.icon]).
pub(crate) fn digits_len(base: u64, text: &[u8]) -> usize
    ensures value { result ≡ digits_len base text.now }
    ensures within { result ≤ length text.now }
{
    let mut len = 0;
    'digits: while goes_on(base, after(text, len)) {
        len += 1;
    }
    len
}

/// How many bytes in front are digits of this base.
pub(crate) fn plain_digits_len(base: u64, text: &[u8]) -> usize
    ensures value { result ≡ prefix_len (is_digit base) text.now }
    ensures within { result ≤ length text.now }
{
    for (i, byte) in text.iter().enumerate() {
        if !is_digit(base, *byte) {
            return i;
        }
    }
    text.len()
}

/// The number that the digits among the bytes write; None exactly where it has no place in 64 bits.
pub fn number(base: u64, text: &[u8]) -> Option<u64>
    requires { 0 < base }
    ensures { result ≡ fitting (number_of base text.now) }
{
    let mut number = 0;
    'digits: for byte in text {
        if let Some(value) = digit(base, *byte) {
            number = with_digit(number, base, value)?;
        }
    }
    Some(number)
}

// One more digit behind.
fn with_digit(number: u64, base: u64, value: u64) -> Option<u64>
    ensures { result ≡ fitting (number * base + value) }
{
    number.checked_mul(base)?.checked_add(value)
}
