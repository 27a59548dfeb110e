ghost use Rattle.std.specs.Prelude.{◌≡◌, ◌≤◌, ◌||◌, None};
ghost use Rattle.std.specs.List.{list_any};
ghost use Rattle.std.specs.Option.{option_map};
ghost use Rattle.scan_model.specs.Condition.{is_bad_literal, opens_operand, is_unary, is_too_deep};
ghost use Rattle.if_values.specs.Known.{HasEntries, known};
ghost use Rattle.if_values.specs.Items.{token_of};
ghost use Rattle.if_values.specs.Depths.{is_over, row_after, questions_after};

use crate::characters::character_value;
use crate::integer::integer;
use crate::known_tokens::{Item, KnownTokens};
use crate::operators::is_operator;
use crate::token_tests::{is_bang_or_tilde, is_colon, is_plus_or_minus, is_question};
use scan_model::{Kind, Tok};

fn is_bad_literal(tok: &Tok) -> bool
    ensures { result ≡ is_bad_literal tok.now }
{
    match tok.kind {
        Kind::Number => integer(tok.text.as_slice()).is_none(),
        Kind::Char => character_value(tok.text.as_slice()).is_none(),
        _ => false,
    }
}

#[tactic(auto, unfolding(scan_model::specs::Literals::integer))]
fn is_bad_item(item: Item<'_>) -> bool
    ensures { result ≡ is_bad_literal (token_of item.entry) }
{
    match item {
        Item::Plain(tok) => is_bad_literal(tok),
        Item::Has(_) => false,
    }
}

/// Whether a literal has no value, evaluated or not.
pub(crate) fn has_bad_literal(toks: &[Tok], has: &[bool]) -> bool
    requires { HasEntries toks.now has.now }
    ensures { result ≡ list_any is_bad_literal (known toks.now has.now) }
{
    let mut left = KnownTokens::new(toks, has);
    'literals: while let Some(item) = left.next() {
        if is_bad_item(item) {
            return true;
        }
    }
    false
}

fn opens_operand(before: Option<&Tok>) -> bool
    ensures { result ≡ opens_operand (option_map (λ t. t.now) before.entry) }
{
    match before {
        None => true,
        Some(tok) => is_operator(tok) | tok.is_open_paren() | is_question(tok) | is_colon(tok),
    }
}

// A `+` or `-` is unary where no operand stands before it.
fn is_unary(before: Option<&Tok>, tok: &Tok) -> bool
    ensures { result ≡ is_unary (option_map (λ t. t.now) before.entry) tok.now }
{
    is_bang_or_tilde(tok) || (is_plus_or_minus(tok) && opens_operand(before))
}

fn row_after(before: Option<&Tok>, tok: &Tok, row: u32) -> u32
    requires { row ≤ 256 }
    ensures value { result ≡ row_after (option_map (λ t. t.now) before.entry) tok.now row }
    ensures small { result ≤ 257 }
{
    if is_unary(before, tok) { row + 1 } else { 0 }
}

fn questions_after(tok: &Tok, questions: u32) -> u32
    requires { questions ≤ 256 }
    ensures value { result ≡ questions_after tok.now questions }
    ensures small { result ≤ 257 }
{
    if is_question(tok) {
        questions + 1
    } else {
        questions
    }
}

fn is_over(opened: usize, row: u32, questions: u32) -> bool
    ensures { result ≡ is_over opened row questions }
{
    (opened > 256) | (row > 256) | (questions > 256)
}

/// Whether more than 256 parentheses are open at some place, or more than 256 unary operators stand in a row, or there
/// are more than 256 `?`. Every token counts.
pub(crate) fn is_too_deep(toks: &[Tok]) -> bool
    ensures { result ≡ is_too_deep 0 0 0 None toks.now }
{
    let mut opened = 0usize;
    let mut row = 0;
    let mut questions = 0;
    let mut before = None;
    'depth: for tok in toks {
        opened = tok.depth_after(opened);
        row = row_after(before, tok, row);
        questions = questions_after(tok, questions);
        if is_over(opened, row, questions) {
            return true;
        }
        before = Some(tok);
    }
    false
}
