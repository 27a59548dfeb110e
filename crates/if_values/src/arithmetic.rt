ghost use Rattle.std.specs.Prelude.{◌≡◌, ◌||◌, ◌<◌, ◌≢◌, false, nat_le};
ghost use Rattle.scan_model.specs.ConditionTree.{signed_value, ShiftLeft, ShiftRight, Over, Modulo};
ghost use Rattle.scan_model.specs.ConditionValue.{is_negative, negated, magnitude, of_bool, is_nonzero, at_type, is_less, with_sign, quotient, remainder, shifted_right, bits_at, infix_value, prefix_value};
ghost use Rattle.if_values.specs.Operators.{binary_of, unary_of};

use crate::operators::{Binary, Unary};
use scan_model::{CondFault, CondValue};

pub(crate) fn signed(bits: u64) -> CondValue
    ensures { result ≡ signed_value bits }
{
    CondValue {
        bits,
        unsigned: false,
    }
}

pub(crate) fn of_bool(truth: bool) -> CondValue
    ensures { result ≡ of_bool truth }
{
    if truth { signed(1) } else { signed(0) }
}

pub(crate) fn is_nonzero(value: CondValue) -> bool
    ensures { result ≡ is_nonzero value }
{
    value.bits != 0
}

/// The same bits at a common type.
pub(crate) fn at_type(unsigned: bool, value: CondValue) -> CondValue
    ensures { result ≡ at_type unsigned value }
{
    CondValue {
        bits: value.bits,
        unsigned,
    }
}

fn is_negative(value: CondValue) -> bool
    ensures { result ≡ is_negative value }
{
    !value.unsigned & (value.bits >= 1 << 63)
}

fn negated(bits: u64) -> u64
    ensures { result ≡ negated bits }
{
    0u64.wrapping_sub(bits)
}

fn magnitude(value: CondValue) -> u64
    ensures { result ≡ magnitude value }
{
    if is_negative(value) {
        negated(value.bits)
    } else {
        value.bits
    }
}

// Of two values of one type.
fn is_less(left: CondValue, right: CondValue) -> bool
    ensures { result ≡ is_less left right }
{
    if is_negative(left) == is_negative(right) {
        left.bits < right.bits
    } else {
        is_negative(left)
    }
}

fn with_sign(negative: bool, magnitude: u64) -> u64
    ensures { result ≡ with_sign negative magnitude }
{
    if negative {
        negated(magnitude)
    } else {
        magnitude
    }
}

// Truncated toward zero ([expr.mul]).
fn quotient(left: CondValue, right: CondValue) -> u64
    requires { right.bits ≢ 0 }
    ensures { result ≡ quotient left right }
{
    with_sign(
        is_negative(left) != is_negative(right),
        magnitude(left) / magnitude(right),
    )
}

// It has the sign of the left operand.
fn remainder(left: CondValue, right: CondValue) -> u64
    requires { right.bits ≢ 0 }
    ensures { result ≡ remainder left right }
{
    with_sign(is_negative(left), magnitude(left) % magnitude(right))
}

// A negative number keeps its sign ([expr.shift]).
fn shifted_right(left: CondValue, amount: u64) -> u64
    requires { amount < 64 }
    ensures { result ≡ shifted_right left amount }
{
    if is_negative(left) {
        !(!left.bits >> amount)
    } else {
        left.bits >> amount
    }
}

fn bits_at(unsigned: bool, bits: u64) -> Result<CondValue, CondFault>
    ensures { result ≡ bits_at unsigned bits }
{
    Ok(CondValue { bits, unsigned })
}

// An amount by which nothing is shifted.
fn is_bad_amount(amount: CondValue) -> bool
    ensures { result ≡ is_negative amount || nat_le 64 amount.bits }
{
    is_negative(amount) | (amount.bits >= 64)
}

fn shift_left(left: CondValue, amount: CondValue) -> Result<CondValue, CondFault>
    ensures { result ≡ infix_value ShiftLeft false left amount }
{
    if is_bad_amount(amount) {
        return Err(CondFault::BadShift);
    }
    bits_at(left.unsigned, left.bits << (amount.bits % 64))
}

fn shift_right(left: CondValue, amount: CondValue) -> Result<CondValue, CondFault>
    ensures { result ≡ infix_value ShiftRight false left amount }
{
    if is_bad_amount(amount) {
        return Err(CondFault::BadShift);
    }
    bits_at(left.unsigned, shifted_right(left, amount.bits % 64))
}

fn divide(unsigned: bool, left: CondValue, right: CondValue) -> Result<CondValue, CondFault>
    ensures { result ≡ infix_value Over unsigned left right }
{
    if right.bits == 0 {
        return Err(CondFault::DivisionByZero);
    }
    bits_at(
        unsigned,
        quotient(at_type(unsigned, left), at_type(unsigned, right)),
    )
}

fn modulo(unsigned: bool, left: CondValue, right: CondValue) -> Result<CondValue, CondFault>
    ensures { result ≡ infix_value Modulo unsigned left right }
{
    if right.bits == 0 {
        return Err(CondFault::DivisionByZero);
    }
    bits_at(
        unsigned,
        remainder(at_type(unsigned, left), at_type(unsigned, right)),
    )
}

// Whether the left one is less, at the type of both.
fn is_below(unsigned: bool, left: CondValue, right: CondValue) -> bool
    ensures { result ≡ is_less (at_type unsigned left) (at_type unsigned right) }
{
    is_less(at_type(unsigned, left), at_type(unsigned, right))
}

/// An operator's value at two operands, both evaluated. The two are converted to one type, unsigned where either is,
/// but for a shift, which has the left one's ([expr.arith.conv]). What wraps, wraps at 64 bits.
pub(crate) fn infix_value(
    operator: Binary,
    left: CondValue,
    right: CondValue,
) -> Result<CondValue, CondFault>
    ensures { result ≡ infix_value (binary_of operator) (left.unsigned || right.unsigned) left right }
{
    let unsigned = left.unsigned | right.unsigned;
    match operator {
        Binary::OrElse => Ok(of_bool(is_nonzero(left) | is_nonzero(right))),
        Binary::AndAlso => Ok(of_bool(is_nonzero(left) & is_nonzero(right))),
        Binary::BitOr => bits_at(unsigned, left.bits | right.bits),
        Binary::BitXor => bits_at(unsigned, left.bits ^ right.bits),
        Binary::BitAnd => bits_at(unsigned, left.bits & right.bits),
        Binary::Equal => Ok(of_bool(left.bits == right.bits)),
        Binary::Unequal => Ok(of_bool(left.bits != right.bits)),
        Binary::Less => Ok(of_bool(is_below(unsigned, left, right))),
        Binary::Greater => Ok(of_bool(is_below(unsigned, right, left))),
        Binary::AtMost => Ok(of_bool(!is_below(unsigned, right, left))),
        Binary::AtLeast => Ok(of_bool(!is_below(unsigned, left, right))),
        Binary::ShiftLeft => shift_left(left, right),
        Binary::ShiftRight => shift_right(left, right),
        Binary::Plus => bits_at(unsigned, left.bits.wrapping_add(right.bits)),
        Binary::Minus => bits_at(unsigned, left.bits.wrapping_sub(right.bits)),
        Binary::Times => bits_at(unsigned, left.bits.wrapping_mul(right.bits)),
        Binary::Over => divide(unsigned, left, right),
        Binary::Modulo => modulo(unsigned, left, right),
    }
}

/// A unary operator's value at an operand.
pub(crate) fn prefix_value(operator: Unary, value: CondValue) -> CondValue
    ensures { result ≡ prefix_value (unary_of operator) value }
{
    match operator {
        Unary::Not => of_bool(!is_nonzero(value)),
        Unary::Complement => CondValue {
            bits: !value.bits,
            unsigned: value.unsigned,
        },
        Unary::Negative => CondValue {
            bits: negated(value.bits),
            unsigned: value.unsigned,
        },
        Unary::Positive => value,
    }
}
