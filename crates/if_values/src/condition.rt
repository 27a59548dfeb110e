ghost use Rattle.std.specs.Prelude.{◌≡◌};
ghost use Rattle.scan_model.specs.ConditionTree.{tree};
ghost use Rattle.scan_model.specs.Condition.{value_of_tree, value};
ghost use Rattle.if_values.specs.Known.{HasEntries, known};

use crate::climb::conditional;
use crate::faults::{has_bad_literal, is_too_deep};
use crate::known_tokens::KnownTokens;
use scan_model::{CondFault, CondValue, Tok};

// The value of the one tree that all of the tokens make.
fn whole(toks: &[Tok], has: &[bool]) -> Result<CondValue, CondFault>
    requires { HasEntries toks.now has.now }
    ensures { result ≡ value_of_tree (tree (known toks.now has.now)) }
{
    let mut left = KnownTokens::new(toks, has);
    match conditional(&mut left) {
        Some(condition) => {
            if left.peek().is_none() {
                condition.value
            } else {
                Err(CondFault::BadCondition)
            }
        }
        None => Err(CondFault::BadCondition),
    }
}

/// The value of the condition that the tokens make, where `has` has one entry for each `__has_include(..)` and
/// `__has_include_next(..)` among them, in order: whether the header was found ([cpp.cond], [expr.const]). None of them may
/// be malformed; `next_has` tells.
///
/// Integers are of 64 bits and wrap. Where a condition has no value, the fault is the first of these: `BadNumber` where a
/// literal has no value, evaluated or not; `ConditionTooDeep`; `BadCondition` where the tokens make no condition; and the
/// first `DivisionByZero` or `BadShift` that evaluation meets from left to right. What `&&`, `||` and `? :` leave
/// unevaluated has no such fault.
pub fn value(toks: &[Tok], has: &[bool]) -> Result<CondValue, CondFault>
    requires { HasEntries toks.now has.now }
    ensures { result ≡ value toks.now has.now }
{
    if has_bad_literal(toks, has) {
        return Err(CondFault::BadNumber);
    }
    if is_too_deep(toks) {
        return Err(CondFault::ConditionTooDeep);
    }
    whole(toks, has)
}
