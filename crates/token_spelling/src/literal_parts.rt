ghost use Rattle.std.specs.Prelude.{◌≡◌, ◌<◌, ◌==◌, length, slice_index, IsTrue};
ghost use Rattle.scan_model.specs.Spelling.{encoding_len, is_suffix};

use crate::names::is_name;

// How many bytes the prefix `u8`, `u`, `U` or `L` takes that begins the text, or 0.
pub fn encoding_len(text: &[u8]) -> usize
    ensures { result ≡ encoding_len text.now }
{
    if text.starts_with(b"u8") {
        2
    } else if text.starts_with(b"u") || text.starts_with(b"U") || text.starts_with(b"L") {
        1
    } else {
        0
    }
}

// Whether the byte, which isn't NUL, stands at this place.
pub fn stands_at(text: &[u8], place: usize, byte: u8) -> bool
    requires { 0 < byte }
    ensures value { result ≡ (slice_index text.now place == byte) }
    ensures within { IsTrue result → place < length text.now }
{
    place < text.len() && text[place] == byte
}

// Whether the text may follow a closing quote: an identifier as suffix, or nothing ([lex.ext]).
pub fn is_suffix(text: &[u8]) -> bool
    ensures { result ≡ is_suffix text.now }
{
    text.is_empty() || is_name(text)
}
