ghost use Rattle.std.specs.Prelude.{◌≡◌, ◌<◌, ◌≤◌, [], length, OnSome};
ghost use Rattle.if_values.specs.Levels.{levels_from};
ghost use Rattle.if_values.specs.Marks.{IsPast};
ghost use Rattle.if_values.specs.UnaryRows.{prefixed_by};
ghost use Rattle.if_values.specs.Reading.{ReadsConditional, ReadsInParens, ReadsFirst, ReadsLevels};

use crate::known_tokens::{Item, KnownTokens};
use crate::leaves::{known_leaf, leaf};
use crate::marks::{Mark, pass, pass_operator};
use crate::operand::{Operand, choice, infix, prefixed};
use crate::operators::unary_operator;
use scan_model::Tok;

// The operators of a row before an operand. The row is walked backwards in a loop, so that a long one needs no stack.
fn with_row(row: &[Tok], operand: Operand) -> Operand
    ensures { result ≡ prefixed_by row.now operand }
{
    let mut operand = operand;
    let mut left = row.len();
    'row: while left > 0 {
        left -= 1;
        if let Some(operator) = unary_operator(&row[left]) {
            operand = prefixed(operator, operand);
        }
    }
    operand
}

/// A condition ([expr.cond]), in front of the tokens that it leaves. None exactly where the tokens begin with none; what
/// they leave is then of no use.
///
/// It is called again for each open parenthesis and each `?` alone, through at most one call for each level of operators;
/// so the stack that it takes is bounded where these are counted first.
#[cycle(climb)]
pub(crate) fn conditional(at: &mut KnownTokens<'_>) -> Option<Operand>
    ensures value { ReadsConditional at.old result at.new }
    ensures shorter { OnSome result (length at.new < length at.old) }
{
    let condition = binary(0, at)?;
    if !pass(at, Mark::Question) {
        return Some(condition);
    }
    let chosen = conditional(at)?;
    if !pass(at, Mark::Colon) {
        return None;
    }
    let other = conditional(at)?;
    Some(choice(condition, chosen, other))
}

// Operands with operators of this level and of the tighter ones between them; 0 is the loosest level. The right operand of
// an operator is read from the next tighter level on, so that operators of one level group to the left.
#[cycle(climb)]
fn binary(level: u32, at: &mut KnownTokens<'_>) -> Option<Operand>
    ensures value { ReadsLevels (levels_from level) at.old result at.new }
    ensures shorter { OnSome result (length at.new < length at.old) }
    ensures past { OnSome result (IsPast (levels_from level) at.new) }
{
    let mut left = unary(at)?;
    'operands: while let Some(operator) = pass_operator(at, level) {
        let right = binary(operator.level() + 1, at)?;
        left = infix(operator, left, right);
    }
    Some(left)
}

#[cycle(climb)]
fn unary(at: &mut KnownTokens<'_>) -> Option<Operand>
    ensures value { ReadsLevels [] at.old result at.new }
    ensures shorter { OnSome result (length at.new < length at.old) }
{
    let row = at.pass_row();
    let operand = primary(at)?;
    Some(with_row(row, operand))
}

#[cycle(climb)]
fn primary(at: &mut KnownTokens<'_>) -> Option<Operand>
    ensures value { ReadsFirst at.old result at.new }
    ensures shorter { OnSome result (length at.new < length at.old) }
{
    match at.next() {
        Some(Item::Plain(tok)) => {
            if tok.is_open_paren() {
                in_parens(at)
            } else {
                leaf(tok, at)
            }
        }
        Some(Item::Has(known)) => Some(known_leaf(known)),
        None => None,
    }
}

// A condition and the `)` after it.
#[cycle(climb)]
fn in_parens(at: &mut KnownTokens<'_>) -> Option<Operand>
    ensures value { ReadsInParens at.old result at.new }
    ensures shorter { OnSome result (length at.new < length at.old) }
{
    let operand = conditional(at)?;
    if pass(at, Mark::Close) {
        Some(operand)
    } else {
        None
    }
}
