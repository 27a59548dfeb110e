ghost use Rattle.std.specs.Prelude.{◌≡◌, ◌<◌, length, IsFalse};
ghost use Rattle.line_splice.specs.Cursor.{text_of, rest};
ghost use Rattle.lexeme_reader.specs.Fronts.{line};
ghost use Rattle.scan_model.specs.Spelling.{is_name, is_number, opens, longest};
ghost use Rattle.pp_lexer.specs.Classes.{told_kind};
ghost use Rattle.pp_lexer.specs.Reads.{GivesShown, IsAhead, unquoted};

use crate::class::Class;
use crate::marks::mark_len;
use lexeme_reader::{
    begins_name, begins_number, pass_bytes, pass_character, pass_name, pass_number,
};
use line_splice::Cursor;
use scan_model::Kind;

// Passes the token that stands here where neither a name, a number nor a literal does: a punctuator, or a single character.
pub fn pass_mark(at: &mut Cursor<'_>) -> Kind
    requires some { 0 < length (line (rest at.old)) }
    requires single { IsFalse (opens 39 (line (rest at.old))) }
    requires double { IsFalse (opens 34 (line (rest at.old))) }
    requires names { longest is_name (line (rest at.old)) ≡ 0 }
    requires numbers { longest is_number (line (rest at.old)) ≡ 0 }
    ensures text { text_of at.new ≡ text_of at.old }
    ensures ahead { IsAhead (rest at.old) (rest at.new) }
    ensures lexeme { GivesShown (unquoted (rest at.old)) result (rest at.old) (rest at.new) }
{
    let len = mark_len(at);
    if len > 0 {
        pass_bytes(at, len);
        return Kind::Punct;
    }
    pass_character(at);
    Kind::Stray
}

// Passes the token that stands here where no quote opens: a name, a number, a punctuator, or a single character.
pub fn pass_unquoted(at: &mut Cursor<'_>) -> Class
    requires some { 0 < length (line (rest at.old)) }
    requires single { IsFalse (opens 39 (line (rest at.old))) }
    requires double { IsFalse (opens 34 (line (rest at.old))) }
    ensures text { text_of at.new ≡ text_of at.old }
    ensures ahead { IsAhead (rest at.old) (rest at.new) }
    ensures lexeme { GivesShown (unquoted (rest at.old)) (told_kind result (rest at.old) (rest at.new)) (rest at.old) (rest at.new) }
{
    if begins_name(at) {
        pass_name(at);
        return Class::Name;
    }
    if begins_number(at) {
        pass_number(at);
        return Class::Of(Kind::Number);
    }
    Class::Of(pass_mark(at))
}
