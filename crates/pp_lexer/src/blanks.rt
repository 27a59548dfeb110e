ghost use Rattle.std.specs.Prelude.{◌≡◌, ◌≤◌, [], ◌∷◌, Some, None, IsTrue, IsFalse, take, length, nat_lt, if◌then◌else◌};
ghost use Rattle.std.specs.List.{list_all};
ghost use Rattle.line_splice.specs.Cursor.{text_of, rest};
ghost use Rattle.lexeme_reader.specs.Passes.{PassesRun};
ghost use Rattle.scan_model.specs.Spelling.{is_blank};
ghost use Rattle.scan_model.specs.Tokens.{begins, first_is_blank, from_newline, after_comment, next_blank, after_blanks};
ghost use Rattle.pp_lexer.specs.Reads.{is_space};

use lexeme_reader::pass_over;
use line_splice::Cursor;

fn is_blank(byte: u8) -> bool
    ensures { result ≡ is_blank byte }
{
    (byte == b' ') | (byte == b'\t') | (byte == 0x0B) | (byte == 0x0C) | (byte == b'\r')
}

fn first_is_blank(at: &Cursor<'_>) -> bool
    ensures { result ≡ first_is_blank (rest at.now) }
{
    match at.peek() {
        Some(byte) => is_blank(byte),
        None => false,
    }
}

fn is_next(at: &Cursor<'_>, byte: u8) -> bool
    ensures { result ≡ begins (byte ∷ []) (rest at.now) }
{
    match at.peek() {
        Some(next) => next == byte,
        None => false,
    }
}

// Whether these two bytes come next.
fn begins(at: &Cursor<'_>, first: u8, second: u8) -> bool
    ensures { result ≡ begins (first ∷ second ∷ []) (rest at.now) }
{
    match at.peek() {
        Some(byte) => {
            if byte != first {
                return false;
            }
            let mut next = *at;
            next.advance();
            is_next(&next, second)
        }
        None => false,
    }
}

// Goes on to the next newline that shows, which a splice is not.
fn pass_line(at: &mut Cursor<'_>)
    ensures text { text_of at.new ≡ text_of at.old }
    ensures rest { rest at.new ≡ from_newline (rest at.old) }
{
    while let Some(byte) = at.peek() {
        if byte == b'\n' {
            break;
        }
        at.advance();
        pass_over(at, b'\n');
    }
}

// Passes the next `*/` and what stands before it, or all that is left.
fn pass_comment(at: &mut Cursor<'_>)
    ensures text { text_of at.new ≡ text_of at.old }
    ensures rest { rest at.new ≡ after_comment (rest at.old) }
{
    'comment: while !at.is_end() {
        if begins(at, b'*', b'/') {
            at.advance();
            at.advance();
            break;
        }
        at.advance();
        pass_over(at, b'*');
    }
}

// Passes a blank or a comment. The answer says whether one stood here.
fn pass_blank(at: &mut Cursor<'_>) -> bool
    ensures text { text_of at.new ≡ text_of at.old }
    ensures blank { (if result then Some (rest at.new) else None) ≡ next_blank (rest at.old) }
    ensures none { IsFalse result → rest at.new ≡ rest at.old }
{
    if first_is_blank(at) {
        at.advance();
        true
    } else if begins(at, b'/', b'/') {
        pass_line(at);
        true
    } else if begins(at, b'/', b'*') {
        at.advance();
        at.advance();
        pass_comment(at);
        true
    } else {
        false
    }
}

fn is_space(byte: u8) -> bool
    ensures { result ≡ is_space byte }
{
    (byte == b' ') | (byte == b'\t')
}

// How many spaces and tabs the text begins with.
fn spaces_len(written: &[u8]) -> usize
    ensures within { result ≤ length written.now }
    ensures all { IsTrue (list_all is_space (take result written.now)) }
{
    for i in 0..written.len() {
        if !is_space(written[i]) {
            return i;
        }
    }
    written.len()
}

// Passes the spaces and tabs that come next, at once.
fn pass_spaces(at: &mut Cursor<'_>)
    ensures text { text_of at.new ≡ text_of at.old }
    ensures run { PassesRun is_space (rest at.old) (rest at.new) }
{
    let count = spaces_len(at.ahead());
    at.pass_plain(count);
}

/// Passes the white space, other than newlines, and the comments that stand here ([lex.comment]). The answer says
/// whether there were any. No memory is taken.
pub fn pass_blanks(at: &mut Cursor<'_>) -> bool
    ensures text { text_of at.new ≡ text_of at.old }
    ensures rest { rest at.new ≡ after_blanks (rest at.old) }
    ensures passed { result ≡ nat_lt (length (after_blanks (rest at.old))) (length (rest at.old)) }
{
    let mut passed = false;
    'blanks: while pass_blank(at) {
        pass_spaces(at);
        passed = true;
    }
    passed
}
