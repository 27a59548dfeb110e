ghost use Rattle.std.specs.Prelude.{◌≡◌, ◌+◌, ◌≤◌, ◌++◌, [], ◌∷◌, ◌==◌, ◌||◌, false, nat_eq, not, length, IsTrue, MatchOption};
ghost use Rattle.std.specs.Option.{option_copied};
ghost use Rattle.std.specs.List.{starts_with};
ghost use Rattle.scan_model.specs.Spelling.{is_blank, opens_raw, is_delimited, after_word, is_raw};
ghost use Rattle.token_spelling.specs.Delimiters.{IsOpened, Divides};

use crate::literal_parts::{encoding_len, is_suffix, stands_at};

const LONGEST_DELIMITER: usize = 16;

// What stands behind the `R"` of a raw string: a delimiter before the first `(`, and the text after that.
#[derive(Clone, Copy)]
struct Divided<'a> {
    delimiter: &'a [u8],
    inside: &'a [u8],
}

fn may_delimit(byte: u8) -> bool
    ensures { result ≡ not (is_blank byte || byte == 10 || byte == 41 || byte == 92) }
{
    let is_blank = (byte == b' ')
        | (byte == b'\t')
        | (byte == 0x0B)
        | (byte == 0x0C)
        | (byte == b'\r');
    !(is_blank | (byte == b'\n') | (byte == b')') | (byte == b'\\'))
}

// None exactly where no good delimiter and `(` begin the text.
fn divide(text: &[u8]) -> Option<Divided<'_>>
    ensures { MatchOption result (is_delimited text.now ≡ false) (λ d. Divides text.now d.delimiter.now d.inside.now) }
{
    for (i, &byte) in text.iter().enumerate() {
        if byte == b'(' {
            return Some(Divided {
                delimiter: &text[..i],
                inside: &text[i + 1..],
            });
        }
        if (i == LONGEST_DELIMITER) | !may_delimit(byte) {
            return None;
        }
    }
    None
}

// Whether `)`, the delimiter and `"` begin the text.
fn closes(text: &[u8], delimiter: &[u8]) -> bool
    ensures value { result ≡ starts_with nat_eq text.now (41 ∷ delimiter.now ++ 34 ∷ []) }
    ensures within { IsTrue result → length delimiter.now + 2 ≤ length text.now }
{
    if !stands_at(text, 0, b')') {
        return false;
    }
    text[1..].starts_with(delimiter) & stands_at(text, delimiter.len() + 1, b'"')
}

// What follows the first place where a raw string of this delimiter closes. None exactly where there is none. A good
// delimiter is short, so this takes a time in proportion to the text.
fn after_close<'a>(text: &'a [u8], delimiter: &[u8]) -> Option<&'a [u8]>
    ensures { option_copied result ≡ after_word (41 ∷ delimiter.now ++ 34 ∷ []) text.now }
{
    for i in 0..text.len() {
        let left = &text[i..];
        if closes(left, delimiter) {
            return Some(&left[delimiter.len() + 2..]);
        }
    }
    None
}

// What follows the prefix, if there is one, and `R"`. None exactly where they don't begin the spelling.
fn after_opening(spelling: &[u8]) -> Option<&[u8]>
    ensures { MatchOption result (opens_raw spelling.now ≡ false) (λ r. IsOpened spelling.now r.now) }
{
    let prefix = encoding_len(spelling);
    let opens = stands_at(spelling, prefix, b'R') & stands_at(spelling, prefix + 1, b'"');
    if !opens {
        return None;
    }
    Some(&spelling[prefix + 2..])
}

// Whether the spelling is a raw string ([lex.string]): a prefix `u8`, `u`, `U` or `L` or none, `R"`, a delimiter of at
// most 16 bytes, none of them white space, a newline, `(`, `)` or a backslash, `(`, bytes, `)`, the delimiter again and
// `"` where they stand first, and an identifier as suffix or none.
pub fn is_raw(spelling: &[u8]) -> bool
    ensures { result ≡ is_raw spelling.now }
{
    let Some(opened) = after_opening(spelling) else {
        return false;
    };
    let Some(divided) = divide(opened) else {
        return false;
    };
    match after_close(divided.inside, divided.delimiter) {
        Some(suffix) => is_suffix(suffix),
        None => false,
    }
}
