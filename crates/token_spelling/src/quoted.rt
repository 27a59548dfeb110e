ghost use Rattle.std.specs.Prelude.{◌≡◌, false, ◌<◌};
ghost use Rattle.std.specs.Option.{option_copied};
ghost use Rattle.scan_model.specs.Spelling.{after_items, is_quoted, is_char, is_str};

use crate::literal_parts::{encoding_len, is_suffix, stands_at};
use crate::raw_strings::is_raw;

// What follows the closing quote of a literal, of which this is the text behind its opening quote. None exactly where
// none closes it before a newline or the end.
fn after_items(quote: u8, text: &[u8]) -> Option<&[u8]>
    ensures { option_copied result ≡ after_items quote false text.now }
{
    let mut escaped = false;
    for (i, &byte) in text.iter().enumerate() {
        if byte == b'\n' {
            return None;
        }
        if !escaped & (byte == quote) {
            return Some(&text[i + 1..]);
        }
        escaped = !escaped & (byte == b'\\');
    }
    None
}

// Whether the spelling is a literal between two such quotes, with a prefix and a suffix if it has them.
fn is_quoted(quote: u8, spelling: &[u8]) -> bool
    requires { 0 < quote }
    ensures { result ≡ is_quoted quote spelling.now }
{
    let prefix = encoding_len(spelling);
    if !stands_at(spelling, prefix, quote) {
        return false;
    }
    match after_items(quote, &spelling[prefix + 1..]) {
        Some(suffix) => is_suffix(suffix),
        None => false,
    }
}

/// Whether the spelling is a character literal ([lex.ccon]): a prefix `u8`, `u`, `U` or `L` or none, `'`, bytes other
/// than a newline, `'`, and an identifier as suffix ([lex.ext]) or none. A backslash takes the byte after it, which is
/// no newline, with it. There may be no byte at all between the quotes.
pub fn is_char(spelling: &[u8]) -> bool
    ensures { result ≡ is_char spelling.now }
{
    is_quoted(b'\'', spelling)
}

/// Whether the spelling is a string literal ([lex.string]): as `is_char` says, with `"` in place of `'`, or a raw
/// string.
pub fn is_str(spelling: &[u8]) -> bool
    ensures { result ≡ is_str spelling.now }
{
    is_quoted(b'"', spelling) || is_raw(spelling)
}
