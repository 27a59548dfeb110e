ghost use Rattle.std.specs.Prelude.{◌≡◌};
ghost use Rattle.line_splice.specs.Cursor.{text_of, rest};
ghost use Rattle.pp_lexer.specs.Reads.{PassesToken};

use crate::blanks::pass_blanks;
use crate::lexeme::pass_any;
use crate::tokens::is_on_line;
use line_splice::Cursor;

/// Passes the next token of a line on which no header name is tried, with the white space and comments before it
/// ([lex.pptoken]). The answer is false exactly where a newline outside comments, or the end, comes first; `at` then
/// stands there. No memory is taken.
pub fn pass_token(at: &mut Cursor<'_>) -> bool
    ensures text { text_of at.new ≡ text_of at.old }
    ensures passed { PassesToken (text_of at.old) (rest at.old) result (rest at.new) }
{
    // Most lines end directly after a token.
    if !is_on_line(at) {
        return false;
    }
    pass_blanks(at);
    if !is_on_line(at) {
        return false;
    }
    pass_any(at);
    true
}
