ghost use Rattle.std.specs.Prelude.{◌≡◌, if◌then◌else◌};
ghost use Rattle.line_splice.specs.Cursor.{text_of, rest};
ghost use Rattle.scan_model.specs.declared.token.Kind.{Kind};
ghost use Rattle.pp_lexer.specs.Classes.{told_kind, HasPassed};

use crate::lexeme::Spelling;
use crate::passed::passed_alternative;
use line_splice::Cursor;
use scan_model::Kind;

/// What is known of the kind of a token that a cursor has passed.
#[derive(Clone, Copy)]
pub enum Class {
    /// It is an identifier or an alternative word ([lex.digraph]), as its spelling tells.
    Name,
    /// It is of this kind.
    Of(Kind),
}

/// A token that a cursor has passed, before its kind is told.
#[derive(Clone, Copy)]
pub struct Passed<'a> {
    pub class: Class,
    pub spelling: Spelling<'a>,
}

fn name_kind(is_alternative: bool) -> Kind
    ensures { result ≡ (if is_alternative then Kind.Punct else Kind.Ident) }
{
    if is_alternative {
        Kind::Punct
    } else {
        Kind::Ident
    }
}

/// The kind of the token that has been passed between the two cursors.
pub fn told_kind(class: Class, from: &Cursor<'_>, to: &Cursor<'_>) -> Kind
    requires text { text_of to.now ≡ text_of from.now }
    requires passed { HasPassed class (rest from.now) (rest to.now) }
    ensures { result ≡ told_kind class (rest from.now) (rest to.now) }
{
    match class {
        Class::Name => name_kind(passed_alternative(from, to)),
        Class::Of(kind) => kind,
    }
}
