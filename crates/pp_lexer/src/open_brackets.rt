ghost use Rattle.std.specs.Prelude.{◌≡◌, ◌↔◌, ◌<◌, Some, IsTrue, IsFalse, IfSome, List, length};
ghost use Rattle.line_splice.specs.Cursor.{text_of, rest};
ghost use Rattle.lexeme_reader.specs.Fronts.{line};
ghost use Rattle.scan_model.specs.declared.token.Tok.{Tok};
ghost use Rattle.scan_model.specs.Spliced.{byte_at};
ghost use Rattle.scan_model.specs.Spelling.{is_header, longest};
ghost use Rattle.scan_model.specs.Tokens.{wants_header, lexeme};
ghost use Rattle.pp_lexer.specs.Lexemes.{IsSpelled, GivesLexeme};
ghost use Rattle.pp_lexer.specs.Brackets.{HasNoClosing, IsBare};

use crate::lexeme::{Found, pass_lexeme};
use line_splice::Cursor;

fn opens_bracket(at: &Cursor<'_>) -> bool
    ensures { IsTrue result ↔ (byte_at (rest at.now) ≡ Some 60) }
{
    match at.peek() {
        Some(byte) => byte == b'<',
        None => false,
    }
}

// The place of the end of the line, where no `>` shows on the rest of it.
fn bare_end(at: &Cursor<'_>) -> Option<usize>
    ensures closing { IfSome result (λ end. HasNoClosing (rest at.now)) }
    ensures bare { IfSome result (λ end. IsBare end (text_of at.now) (rest at.now)) }
{
    let mut next = *at;
    'bare: while let Some(byte) = next.peek() {
        if byte == b'\n' {
            return Some(next.raw_from());
        }
        if byte == b'>' {
            return None;
        }
        next.advance();
    }
    None
}

// False only where no header name stands here, since a `<` does and no `>` shows after it on the line.
fn may_be_header(at: &Cursor<'_>, bare_to: &mut usize) -> bool
    requires { IsBare bare_to.old (text_of at.now) (rest at.now) }
    ensures bare { IsBare bare_to.new (text_of at.now) (rest at.now) }
    ensures none { IsFalse result → longest is_header (line (rest at.now)) ≡ 0 }
{
    if !opens_bracket(at) {
        return true;
    }
    if at.raw_from() < *bare_to {
        return false;
    }
    match bare_end(at) {
        Some(end) => {
            *bare_to = end;
            false
        }
        None => true,
    }
}

/// Passes the token that stands here, as `pass_lexeme` does, for a caller that passes the tokens of a line one after
/// another: up to the place `bare_to`, which begins as 0, no `>` closes a header name, so that it is looked for once
/// and not for each `<`. No memory is taken.
pub fn pass_next_lexeme<'a>(at: &mut Cursor<'a>, wants: bool, bare_to: &mut usize) -> Found<'a>
    requires some { 0 < length (line (rest at.old)) }
    requires bare { IsBare bare_to.old (text_of at.old) (rest at.old) }
    ensures text { text_of at.new ≡ text_of at.old }
    ensures spelling { IsSpelled (text_of at.old) result (rest at.old) (rest at.new) }
    ensures lexeme { (before : List Tok) → wants_header before ≡ wants
        → GivesLexeme (text_of at.old) (lexeme (text_of at.old) before (rest at.old)) result (rest at.old) (rest at.new) }
    ensures bare { IsBare bare_to.new (text_of at.old) (rest at.old) }
{
    if wants {
        let may_be = may_be_header(at, bare_to);
        pass_lexeme(at, may_be)
    } else {
        pass_lexeme(at, false)
    }
}
