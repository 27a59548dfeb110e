ghost use Rattle.std.specs.Prelude.{◌≡◌, ◌≤◌, ℕ, List, length, take, slice_index, IfSome};
ghost use Rattle.line_splice.specs.Cursor.{rest};
ghost use Rattle.lexeme_reader.specs.Fronts.{line};
ghost use Rattle.scan_model.specs.Tokens.{is_lone_less};
ghost use Rattle.pp_lexer.specs.Reads.{mark_len, shows_itself};

use line_splice::Cursor;
use word_table::punctuator;

// The bytes that come next on the logical line, at most four: no punctuator is longer.
#[derive(Clone, Copy)]
struct Window {
    bytes: [u8; 4],
    len: usize,
}

fn next_bytes(at: &Cursor<'_>) -> Window
    ensures small { result.len ≤ 4 }
    ensures within { result.len ≤ length (rest at.now) }
    ensures bytes { take result.len result.bytes ≡ take 4 (line (rest at.now)) }
{
    let mut next = *at;
    let mut bytes = [0u8; 4];
    'window: for len in 0..4usize {
        let byte = next.peek().unwrap_or(b'\n');
        if byte == b'\n' {
            return Window { bytes, len };
        }
        bytes[len] = byte;
        next.advance();
    }
    Window { bytes, len: 4 }
}

fn fourth_or_zero(shown: &[u8]) -> u8
    ensures { result ≡ slice_index shown.now 3 }
{
    if shown.len() > 3 { shown[3] } else { 0 }
}

// Whether `<` stands here alone before `::` ([lex.pptoken]).
fn is_lone_less(shown: &[u8]) -> bool
    ensures { result ≡ is_lone_less shown.now }
{
    let fourth = fourth_or_zero(shown);
    shown.starts_with(b"<::") & !((fourth == b':') | (fourth == b'>'))
}

// How many bytes the punctuator takes that begins a line with these first four bytes, or 0 where none does.
fn mark_of(shown: &[u8]) -> usize
    ensures { (s : List ℕ) → shown.now ≡ take 4 s → (result ≡ mark_len s) × (result ≤ length s) }
{
    if is_lone_less(shown) {
        return 1;
    }
    match punctuator(shown) {
        Some((_, len)) => len,
        None => 0,
    }
}

// Whether phase 2 leaves the byte as it is.
fn shows_itself(byte: u8) -> bool
    ensures { result ≡ shows_itself byte }
{
    !((byte == b'\\') | (byte == b'\r') | (byte == b'\n'))
}

// The next four bytes as they are written, where they show so.
pub fn written_four<'a>(at: &Cursor<'a>) -> Option<&'a [u8]>
    ensures { IfSome result (λ four. four.now ≡ take 4 (line (rest at.now))) }
{
    let written = at.ahead();
    if written.len() < 4 {
        return None;
    }
    let all = shows_itself(written[0])
        & shows_itself(written[1])
        & shows_itself(written[2])
        & shows_itself(written[3]);
    if all { Some(&written[..4]) } else { None }
}

// How many bytes the punctuator takes that stands here, or 0 where none does. Alternative words are left to the names.
pub fn mark_len(at: &Cursor<'_>) -> usize
    ensures len { result ≡ mark_len (line (rest at.now)) }
    ensures within { result ≤ length (rest at.now) }
{
    match written_four(at) {
        Some(shown) => mark_of(shown),
        None => {
            let window = next_bytes(at);
            mark_of(&window.bytes[..window.len])
        }
    }
}
