ghost use Rattle.std.specs.Prelude.{◌≡◌};
ghost use Rattle.std.specs.Option.{option_map};
ghost use Rattle.if_values.specs.Operators.{binary_of};
ghost use Rattle.if_values.specs.Levels.{at_levels, only_at_its_level};
ghost use Rattle.if_values.specs.Items.{token_of, first_of};
ghost use Rattle.if_values.specs.Marks.{is_mark, Passes, PassesOperator};

use crate::known_tokens::{Item, KnownTokens};
use crate::operators::{Binary, binary_operator};
use crate::token_tests::{is_colon, is_question};

/// What stands between the parts of a condition.
#[derive(Clone, Copy)]
pub(crate) enum Mark {
    Question,
    Colon,
    Close,
}

fn is_mark(mark: Mark, item: Item<'_>) -> bool
    ensures { result ≡ is_mark mark (token_of item.entry) }
{
    match item {
        Item::Plain(tok) => match mark {
            Mark::Question => is_question(tok),
            Mark::Colon => is_colon(tok),
            Mark::Close => tok.is_close_paren(),
        },
        Item::Has(_) => false,
    }
}

/// Passes the mark, if it stands next, and tells whether it did.
pub(crate) fn pass(at: &mut KnownTokens<'_>, mark: Mark) -> bool
    ensures { Passes (is_mark mark) at.old result at.new }
{
    match at.peek() {
        Some(item) => {
            if !is_mark(mark, item) {
                return false;
            }
            at.next();
            true
        }
        None => false,
    }
}

fn operator_of(item: Item<'_>) -> Option<Binary>
    ensures { at_levels (token_of item.entry) ≡ only_at_its_level (option_map binary_of result) }
{
    match item {
        Item::Plain(tok) => binary_operator(tok),
        Item::Has(_) => None,
    }
}

/// Passes a binary operator of this level or a tighter one, if one stands next, and tells which one.
pub(crate) fn pass_operator(at: &mut KnownTokens<'_>, level: u32) -> Option<Binary>
    ensures { PassesOperator level at.old (option_map binary_of result) at.new }
{
    let item = at.peek()?;
    let operator = operator_of(item)?;
    if operator.level() < level {
        return None;
    }
    at.next();
    Some(operator)
}
