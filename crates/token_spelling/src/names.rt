ghost use Rattle.std.specs.Prelude.{◌≡◌, ◌&&◌};
ghost use Rattle.std.specs.List.{list_all};
ghost use Rattle.std.specs.Str.{chars};
ghost use Rattle.scan_model.specs.Spelling.{is_start, is_continue, are_name, is_name, is_ident};

use crate::characters::split_first;
use crate::punctuators::is_alternative;

#[tactic(auto, unfolding(scan_model::specs::Spelling::is_start))]
fn is_start(character: char) -> bool
    ensures { result ≡ is_start character }
{
    let is_letter = if character.is_ascii() {
        character.is_ascii_alphabetic()
    } else {
        unicode_ident::is_xid_start(character)
    };
    is_letter | (character == '_') | (character == '$')
}

// Whether the character may stand in an identifier after its first.
#[tactic(auto, unfolding(scan_model::specs::Spelling::is_continue))]
pub fn is_continue(character: char) -> bool
    ensures { result ≡ is_continue character }
{
    let goes_on = if character.is_ascii() {
        character.is_ascii_alphanumeric()
    } else {
        unicode_ident::is_xid_continue(character)
    };
    goes_on | (character == '_') | (character == '$')
}

fn all_continue(text: &str) -> bool
    ensures { result ≡ list_all is_continue (chars text.now) }
{
    text.chars().all(is_continue)
}

fn are_name(text: &str) -> bool
    ensures { result ≡ are_name (chars text.now) }
{
    match split_first(text) {
        Some((first, rest)) => is_start(first) && all_continue(rest),
        None => false,
    }
}

// Whether the spelling has the shape of an identifier, as the alternative words have ([lex.name]).
#[tactic(auto, unfolding(scan_model::specs::Spelling::is_name))]
pub fn is_name(spelling: &[u8]) -> bool
    ensures { result ≡ is_name spelling.now }
{
    match str::from_utf8(spelling) {
        Ok(text) => are_name(text),
        Err(_) => false,
    }
}

/// Whether the spelling is an identifier ([lex.name]): a character of XID_Start, `_` or `$`, and then characters of
/// XID_Continue, `_` or `$`, but no alternative word ([lex.digraph]).
#[tactic(auto, unfolding(scan_model::specs::Spelling::is_ident))]
pub fn is_ident(spelling: &[u8]) -> bool
    ensures { result ≡ is_ident spelling.now }
{
    is_name(spelling) && !is_alternative(spelling)
}
