ghost use Rattle.std.specs.Prelude.{◌≡◌, ◌≢◌, ◌≤◌, ◌++◌, [], length, drop, take, OnOk};
ghost use Rattle.line_splice.specs.Cursor.{text_of, rest};
ghost use Rattle.scan_model.specs.Spelling.{is_alternative};
ghost use Rattle.scan_model.specs.Tokens.{bytes};
ghost use Rattle.pp_lexer.specs.Reads.{passed, IsAhead};

use line_splice::Cursor;
use scan_model::NoMemory;
use word_table::operator_word;

// The longest alternative words have six bytes.
const BUFFER_LEN: usize = 7;

fn is_alternative(text: &[u8]) -> bool
    ensures { result ≡ is_alternative text.now }
{
    operator_word(text).is_some()
}

// Whether what shows between the two cursors is an alternative word ([lex.digraph]).
pub fn passed_alternative(from: &Cursor<'_>, to: &Cursor<'_>) -> bool
    requires text { text_of to.now ≡ text_of from.now }
    requires ahead { IsAhead (rest from.now) (rest to.now) }
    ensures { result ≡ is_alternative (bytes (passed (rest from.now) (rest to.now))) }
{
    let mut next = *from;
    let mut buffer = [0u8; BUFFER_LEN];
    'word: for len in 0..BUFFER_LEN {
        if next.raw_from() >= to.raw_from() {
            return is_alternative(&buffer[..len]);
        }
        buffer[len] = next.peek().unwrap_or(0);
        next.advance();
    }
    false
}

// Passes the next byte, and adds it.
fn take_byte(at: &mut Cursor<'_>, text: &mut Vec<u8>) -> Result<(), NoMemory>
    requires { rest at.old ≢ [] }
    ensures text { text_of at.new ≡ text_of at.old }
    ensures left { rest at.new ≡ drop 1 (rest at.old) }
    ensures bytes { OnOk result (text.new.items ≡ text.old.items ++ bytes (take 1 (rest at.old))) }
{
    let byte = at.peek().unwrap_or(0);
    at.advance();
    match text.push(byte) {
        Ok(()) => Ok(()),
        Err(_) => Err(NoMemory),
    }
}

// Adds the next bytes that show.
pub fn push_first(text: &mut Vec<u8>, from: &Cursor<'_>, count: usize) -> Result<(), NoMemory>
    requires { count ≤ length (rest from.now) }
    ensures { OnOk result (text.new.items ≡ text.old.items ++ bytes (take count (rest from.now))) }
{
    let mut next = *from;
    'bytes: for _ in 0..count {
        take_byte(&mut next, text)?;
    }
    Ok(())
}

// Adds what shows between the two cursors.
pub fn push_passed(text: &mut Vec<u8>, from: &Cursor<'_>, to: &Cursor<'_>) -> Result<(), NoMemory>
    requires text { text_of to.now ≡ text_of from.now }
    requires ahead { IsAhead (rest from.now) (rest to.now) }
    ensures { OnOk result (text.new.items ≡ text.old.items ++ bytes (passed (rest from.now) (rest to.now))) }
{
    let mut next = *from;
    'bytes: while next.raw_from() < to.raw_from() {
        take_byte(&mut next, text)?;
    }
    Ok(())
}
