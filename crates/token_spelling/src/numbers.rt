ghost use Rattle.std.specs.Prelude.{◌≡◌, slice_index};
ghost use Rattle.std.specs.Str.{chars};
ghost use Rattle.scan_model.specs.Spelling.{first, is_exponent, goes_on, go_on, are_number, is_number};

use crate::characters::split_first;
use crate::names::is_continue;

// The first character, or NUL where there is none.
fn first(text: &str) -> char
    ensures { result ≡ first (chars text.now) }
{
    match split_first(text) {
        Some((character, _)) => character,
        None => '\0',
    }
}

fn is_exponent(character: char) -> bool
    ensures { result ≡ is_exponent character }
{
    matches!(character, 'e' | 'E' | 'p' | 'P')
}

// Whether the character may stand in a number between these two.
fn goes_on(before: char, character: char, after: char) -> bool
    ensures { result ≡ goes_on before character after }
{
    is_continue(character)
        | (character == '.')
        | ((character == '\'') & (after.is_ascii_alphanumeric() | (after == '_')))
        | (((character == '+') | (character == '-')) & is_exponent(before))
}

// Whether the text may follow this character in a number.
fn go_on(before: char, text: &str) -> bool
    ensures { result ≡ go_on before (chars text.now) }
{
    let mut before = before;
    let mut left = text;
    'characters: while let Some((character, after)) = split_first(left) {
        if !goes_on(before, character, first(after)) {
            return false;
        }
        before = character;
        left = after;
    }
    true
}

fn are_number(text: &str) -> bool
    ensures { result ≡ are_number (chars text.now) }
{
    match split_first(text) {
        Some((character, after)) => {
            let begins = character.is_ascii_digit()
                | ((character == '.') & first(after).is_ascii_digit());
            begins && go_on(character, after)
        }
        None => false,
    }
}

/// Whether the spelling is a preprocessing number ([lex.ppnumber]): a digit, or `.` and a digit, and then characters
/// of identifiers, `.`, `'` before a digit, a letter or `_`, and `+` or `-` directly after `e`, `E`, `p` or `P`.
#[tactic(auto, unfolding(scan_model::specs::Spelling::is_number))]
pub fn is_number(spelling: &[u8]) -> bool
    ensures { result ≡ is_number spelling.now }
{
    match str::from_utf8(spelling) {
        Ok(text) => are_number(text),
        Err(_) => false,
    }
}
