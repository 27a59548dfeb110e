ghost use Rattle.std.specs.Prelude.{◌≡◌, IsTrue, nat_lt, drop, slice_index};
ghost use Rattle.line_splice.specs.Cursor.{text_of, rest};
ghost use Rattle.scan_model.specs.Spelling.{is_header, longest};
ghost use Rattle.lexeme_reader.specs.Fronts.{line};
ghost use Rattle.lexeme_reader.specs.Headers.{closes_header, PassesClosing};

use crate::steps::{first_byte, pass_bytes, second_byte};
use line_splice::Cursor;

// Passes the line up to its first closing byte, with it. The answer says whether it has one.
fn pass_closing(at: &mut Cursor<'_>, close: u8) -> bool
    ensures text { text_of at.new ≡ text_of at.old }
    ensures found { PassesClosing result close (rest at.old) (rest at.new) }
{
    'closing: while let Some(byte) = at.peek() {
        if byte == b'\n' {
            return false;
        }
        at.advance();
        if byte == close {
            return true;
        }
    }
    false
}

// Passes the opening byte that stands here, one byte or more, and the closing byte. The answer says whether they
// stand here: where they don't, nothing is passed.
fn pass_enclosed(at: &mut Cursor<'_>, close: u8) -> bool
    requires { IsTrue (closes_header (slice_index (line (rest at.old)) 0) close) }
    ensures text { text_of at.new ≡ text_of at.old }
    ensures value { result ≡ nat_lt 0 (longest is_header (line (rest at.old))) }
    ensures rest { rest at.new ≡ drop (longest is_header (line (rest at.old))) (rest at.old) }
{
    if second_byte(at) == close {
        return false;
    }
    let mut next = *at;
    pass_bytes(&mut next, 1);
    if !pass_closing(&mut next, close) {
        return false;
    }
    *at = next;
    true
}

/// Passes the header name that stands here, in `<` and `>` or in quotes, and says whether one does ([lex.header]).
/// Nothing is passed where none does.
pub fn pass_header(at: &mut Cursor<'_>) -> bool
    ensures text { text_of at.new ≡ text_of at.old }
    ensures value { result ≡ nat_lt 0 (longest is_header (line (rest at.old))) }
    ensures rest { rest at.new ≡ drop (longest is_header (line (rest at.old))) (rest at.old) }
{
    let first = first_byte(at);
    if first == b'<' {
        pass_enclosed(at, b'>')
    } else if first == b'"' {
        pass_enclosed(at, b'"')
    } else {
        false
    }
}
