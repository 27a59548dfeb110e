ghost use Rattle.std.specs.Prelude.{◌≡◌, Ok};
ghost use Rattle.scan_model.specs.ConditionValue.{prefix_value, prefix_unsigned, infix_unsigned, infix_of, then_value, at_type};
ghost use Rattle.if_values.specs.Operators.{binary_of, unary_of};
ghost use Rattle.if_values.specs.Operands.{literal_operand, prefix_operand, infix_operand, selected, choice_operand};

use crate::arithmetic::{at_type, infix_value, is_nonzero, of_bool, prefix_value};
use crate::operators::{Binary, Unary};
use scan_model::{CondFault, CondValue};

/// What is known of a part of a condition: its value, or the first fault of its evaluation, and its type. The type is
/// there without a value, since the operand of `? :` that isn't evaluated decides on the type of the other one.
#[derive(Clone, Copy)]
pub(crate) struct Operand {
    pub value: Result<CondValue, CondFault>,
    pub unsigned: bool,
}

pub(crate) fn literal(value: CondValue) -> Operand
    ensures { result ≡ literal_operand value }
{
    Operand {
        value: Ok(value),
        unsigned: value.unsigned,
    }
}

/// A unary operator before an operand.
pub(crate) fn prefixed(operator: Unary, operand: Operand) -> Operand
    ensures { result ≡ prefix_operand (unary_of operator) operand }
{
    let unsigned = match operator {
        Unary::Not => false,
        _ => operand.unsigned,
    };
    match operand.value {
        Ok(value) => Operand {
            value: Ok(prefix_value(operator, value)),
            unsigned,
        },
        Err(fault) => Operand {
            value: Err(fault),
            unsigned,
        },
    }
}

// The type of a binary operator's value: signed for comparisons and logical operators, the left operand's for shifts.
fn infix_unsigned(operator: Binary, left: bool, right: bool) -> bool
    ensures { result ≡ infix_unsigned (binary_of operator) left right }
{
    match operator {
        Binary::OrElse | Binary::AndAlso | Binary::Equal | Binary::Unequal => false,
        Binary::Less | Binary::Greater | Binary::AtMost | Binary::AtLeast => false,
        Binary::ShiftLeft | Binary::ShiftRight => left,
        Binary::BitOr | Binary::BitXor | Binary::BitAnd => left | right,
        Binary::Plus | Binary::Minus | Binary::Times => left | right,
        Binary::Over | Binary::Modulo => left | right,
    }
}

// Where the left operand is known, `&&` and `||` may leave the right one unevaluated ([expr.log.and], [expr.log.or]).
fn infix_of(
    operator: Binary,
    left: CondValue,
    right: Result<CondValue, CondFault>,
) -> Result<CondValue, CondFault>
    ensures { result ≡ infix_of (binary_of operator) right left }
{
    if matches!(operator, Binary::OrElse) && is_nonzero(left) {
        return Ok(of_bool(true));
    }
    if matches!(operator, Binary::AndAlso) && !is_nonzero(left) {
        return Ok(of_bool(false));
    }
    match right {
        Ok(right) => infix_value(operator, left, right),
        Err(fault) => Err(fault),
    }
}

/// A binary operator between two operands.
pub(crate) fn infix(operator: Binary, left: Operand, right: Operand) -> Operand
    ensures { result ≡ infix_operand (binary_of operator) left right }
{
    let unsigned = infix_unsigned(operator, left.unsigned, right.unsigned);
    match left.value {
        Ok(value) => Operand {
            value: infix_of(operator, value, right.value),
            unsigned,
        },
        Err(fault) => Operand {
            value: Err(fault),
            unsigned,
        },
    }
}

fn selected(
    condition: CondValue,
    chosen: Result<CondValue, CondFault>,
    other: Result<CondValue, CondFault>,
) -> Result<CondValue, CondFault>
    ensures { result ≡ selected chosen other condition }
{
    if is_nonzero(condition) { chosen } else { other }
}

fn converted(unsigned: bool, value: Result<CondValue, CondFault>) -> Result<CondValue, CondFault>
    ensures { result ≡ then_value (λ w. Ok (at_type unsigned w)) value }
{
    match value {
        Ok(value) => Ok(at_type(unsigned, value)),
        Err(fault) => Err(fault),
    }
}

/// `condition ? chosen : other` ([expr.cond]).
pub(crate) fn choice(condition: Operand, chosen: Operand, other: Operand) -> Operand
    ensures { result ≡ choice_operand condition chosen other }
{
    let unsigned = chosen.unsigned | other.unsigned;
    match condition.value {
        Ok(value) => Operand {
            value: converted(unsigned, selected(value, chosen.value, other.value)),
            unsigned,
        },
        Err(fault) => Operand {
            value: Err(fault),
            unsigned,
        },
    }
}
