ghost use Rattle.std.specs.Prelude.{◌≡◌, Some, None, if◌then◌else◌};
ghost use Rattle.scan_model.specs.Tokens.{kind_of};
ghost use Rattle.scan_model.specs.Paste.{is_one_token};

use crate::names::is_ident;
use crate::numbers::is_number;
use crate::punctuators::is_punct;
use crate::quoted::{is_char, is_str};
use scan_model::Kind;

/// The kind of token that the whole spelling makes, other than a header name ([lex.pptoken]). None exactly where it is
/// no identifier, number, character literal, string literal or punctuator.
pub fn kind_of(spelling: &[u8]) -> Option<Kind>
    ensures { result ≡ (if is_one_token spelling.now then Some (kind_of spelling.now) else None) }
{
    if is_punct(spelling) {
        Some(Kind::Punct)
    } else if is_ident(spelling) {
        Some(Kind::Ident)
    } else if is_number(spelling) {
        Some(Kind::Number)
    } else if is_char(spelling) {
        Some(Kind::Char)
    } else if is_str(spelling) {
        Some(Kind::Str)
    } else {
        None
    }
}
