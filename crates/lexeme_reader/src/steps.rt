ghost use Rattle.std.specs.Prelude.{◌≡◌, ◌≢◌, ◌<◌, ◌≤◌, ℕ, true, length, drop, take, IsTrue, slice_index};
ghost use Rattle.std.specs.List.{list_all};
ghost use Rattle.line_splice.specs.Cursor.{text_of, rest};
ghost use Rattle.lexeme_reader.specs.Fronts.{line};
ghost use Rattle.lexeme_reader.specs.Passes.{goes_past, goes_over, PassesRun};

use line_splice::Cursor;
use memchr::memchr3;

/// Passes the next bytes, as many as the count says. They have to be there.
pub fn pass_bytes(at: &mut Cursor<'_>, count: usize)
    requires { count ≤ length (rest at.old) }
    ensures text { text_of at.new ≡ text_of at.old }
    ensures rest { rest at.new ≡ drop count (rest at.old) }
{
    'bytes: for _ in 0..count {
        at.advance();
    }
}

// Whether the byte shows as it is written, and is another one than `stop`.
fn goes_past(stop: u8, byte: u8) -> bool
    ensures { result ≡ goes_past stop byte }
{
    !((byte == stop) | (byte == b'\\') | (byte == b'\r') | (byte == b'\n'))
}

// How many such bytes the text begins with.
fn run_len(written: &[u8], stop: u8) -> usize
    ensures within { result ≤ length written.now }
    ensures all { IsTrue (list_all (goes_past stop) (take result written.now)) }
{
    for i in 0..written.len() {
        if !goes_past(stop, written[i]) {
            return i;
        }
    }
    written.len()
}

// Passes the bytes that come next up to `stop`, or to one before it that may not show as it is written: a backslash,
// CR or LF. They are passed at once, and none may be there.
pub fn pass_until(at: &mut Cursor<'_>, stop: u8)
    ensures text { text_of at.new ≡ text_of at.old }
    ensures run { PassesRun (goes_past stop) (rest at.old) (rest at.new) }
{
    let count = run_len(at.ahead(), stop);
    at.pass_plain(count);
}

// How many bytes the text begins with that are neither `stop`, a backslash nor CR.
fn over_len(written: &[u8], stop: u8) -> usize
    ensures within { result ≤ length written.now }
    ensures all { (k : ℕ) → k < result → goes_over stop (slice_index written.now k) ≡ true }
{
    match memchr3(stop, b'\\', b'\r', written) {
        Some(found) => found,
        None => written.len(),
    }
}

// How many of them are passed at once. Before a backslash one is left, since a splice may follow it; at the end, too.
fn lines_len(written: &[u8], stop: u8) -> usize
    ensures all { (k : ℕ) → k < result → goes_over stop (slice_index written.now k) ≡ true }
    ensures within { result ≢ 0 → result < length written.now }
    ensures next { result ≢ 0 → slice_index written.now result ≢ 92 }
{
    let len = over_len(written, stop);
    if len == written.len() {
        return len.saturating_sub(1);
    }
    if written[len] == b'\\' {
        return len.saturating_sub(1);
    }
    len
}

/// Passes the bytes that come next up to `stop`, newlines among them, or to one before it that may not show as it is
/// written: a backslash or CR. They are passed at once, and none may be there.
pub fn pass_over(at: &mut Cursor<'_>, stop: u8)
    ensures text { text_of at.new ≡ text_of at.old }
    ensures run { PassesRun (goes_over stop) (rest at.old) (rest at.new) }
{
    let count = lines_len(at.ahead(), stop);
    if count == 0 {
        return;
    }
    at.pass_lines(count);
}

// The next byte of the line, or 0 at its end.
pub fn first_byte(at: &Cursor<'_>) -> u8
    ensures { result ≡ slice_index (line (rest at.now)) 0 }
{
    match at.peek() {
        Some(byte) => { if byte == b'\n' { 0 } else { byte } }
        None => 0,
    }
}

// The byte after the next one of the line, or 0 where there is none.
pub fn second_byte(at: &Cursor<'_>) -> u8
    ensures { result ≡ slice_index (line (rest at.now)) 1 }
{
    match at.peek() {
        Some(byte) => {
            if byte == b'\n' {
                return 0;
            }
            let mut next = *at;
            next.advance();
            first_byte(&next)
        }
        None => 0,
    }
}

// The byte after the next one, where it is asked for.
pub fn second_if(at: &Cursor<'_>, asked: bool) -> u8
    ensures { IsTrue asked → result ≡ slice_index (line (rest at.now)) 1 }
{
    if asked { second_byte(at) } else { 0 }
}

// Passes the rest of the line.
pub fn pass_line(at: &mut Cursor<'_>)
    ensures text { text_of at.new ≡ text_of at.old }
    ensures rest { rest at.new ≡ drop (length (line (rest at.old))) (rest at.old) }
{
    'line: while let Some(byte) = at.peek() {
        if byte == b'\n' {
            break;
        }
        at.advance();
    }
}
