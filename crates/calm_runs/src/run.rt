ghost use Rattle.std.specs.Prelude.{◌≡◌, ◌↔◌, ◌≤◌, ℕ, true, Some, IsTrue, take, drop, length};
ghost use Rattle.std.specs.List.{list_all};
ghost use Rattle.line_splice.specs.Cursor.{text_of, rest};
ghost use Rattle.scan_model.specs.Spliced.{byte_at};
ghost use Rattle.calm_runs.specs.Runs.{is_calm, ends_token, is_run, PassesRun};

use crate::calm::calm_len;
use line_splice::Cursor;

/// Passes the tokens that begin here, with the white space between them, as far as they are written with calm bytes
/// alone: none of a literal, a comment, a splice, a newline or a character past ASCII. They are those of a line on which
/// no header name is tried, and there may be none.
pub fn pass_run(at: &mut Cursor<'_>)
    ensures text { text_of at.new ≡ text_of at.old }
    ensures run { PassesRun (text_of at.old) (rest at.old) (rest at.new) }
    ensures left { (count : ℕ) × (rest at.new ≡ drop count (rest at.old)) }
{
    let calm = calm_len(at.ahead());
    let mut next = *at;
    next.pass_plain(calm);
    // A newline ends each token before it.
    if is_newline(&next) {
        *at = next;
        return;
    }
    let count = run_len(&at.ahead()[..calm]);
    at.pass_plain(count);
}

fn is_newline(at: &Cursor<'_>) -> bool
    ensures { IsTrue result ↔ (byte_at (rest at.now) ≡ Some 10) }
{
    match at.peek() {
        Some(byte) => byte == b'\n',
        None => false,
    }
}

// How many bytes the longest run has that the calm bytes begin with.
fn run_len(calm: &[u8]) -> usize
    requires { list_all is_calm calm.now ≡ true }
    ensures within { result ≤ length calm.now }
    ensures run { is_run (take result calm.now) ≡ true }
{
    'bytes: for i in (0..calm.len()).rev() {
        if ends_token(calm[i]) {
            return i + 1;
        }
    }
    0
}

// Whether no token goes on after the byte.
fn ends_token(byte: u8) -> bool
    ensures { result ≡ ends_token byte }
{
    matches!(
        byte,
        b' ' | b'\t' | b';' | b',' | b'(' | b')' | b'{' | b'}' | b'[' | b']'
    )
}
