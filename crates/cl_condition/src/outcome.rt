//! What a part of a condition comes to.

ghost use Rattle.std.specs.Prelude.{◌≡◌, ◌==◌, ◌&&◌, ◌^◌, ◌-◌, Some, None, if◌then◌else◌};
ghost use Rattle.cl_condition.specs.Operators.{level_of, reads_unsigned, gives_unsigned};
ghost use Rattle.cl_condition.specs.Values.{Number, truth_of, unary_unsigned, unary_value, unary_evaluated, is_less, quotient_of, remainder_of, down_of, binary_value, decided_by, evaluated, chosen};
ghost use Rattle.cl_condition.specs.Readings.{outcome_of, unary_outcome, binary_outcome, choice_outcome};

use crate::operator::{BinaryOperator, UnaryOperator};
use cl_precedence::Operand;
use clv_num::Bits;
use clv_place::NoMemory;
use std::alloc::Global;

/// What a part of a condition comes to.
#[derive(Clone, Copy, PartialEq, Eq, Debug)]
pub struct Outcome {
    /// Whether its value is unsigned, be it evaluated or not.
    pub unsigned: bool,
    /// Its 64 bits; none where an operand that it evaluates divides by zero.
    pub value: Option<u64>,
}

impl Outcome {
    /// A number (C99 section 6.4.4.1).
    pub fn number(bits: u64, unsigned: bool) -> Outcome
        ensures { result ≡ outcome_of (Number bits unsigned) }
    {
        Outcome {
            unsigned,
            value: Some(bits),
        }
    }

    /// An operator over its operand (C99 section 6.5.3.3).
    pub fn unary(operator: UnaryOperator, operand: Outcome) -> Outcome
        ensures { result ≡ unary_outcome operator operand }
    {
        Outcome {
            unsigned: operator != UnaryOperator::Not && operand.unsigned,
            value: operand.value.map(|bits| unary_value(operator, bits)),
        }
    }

    /// An operator over its operands (C99 sections 6.5.5 to 6.5.14).
    pub fn binary(operator: BinaryOperator, left: Outcome, right: Outcome) -> Outcome
        ensures { result ≡ binary_outcome operator left right }
    {
        let unsigned = operator.reads_unsigned(left.unsigned, right.unsigned);
        Outcome {
            unsigned: operator.gives_unsigned(left.unsigned, right.unsigned),
            value: evaluated(operator, unsigned, left.value, right.value),
        }
    }

    /// A test with its two arms (C99 section 6.5.15).
    pub fn choice(test: Outcome, passed: Outcome, failed: Outcome) -> Outcome
        ensures { result ≡ choice_outcome test passed failed }
    {
        let value = match test.value {
            None => None,
            Some(0) => failed.value,
            Some(_) => passed.value,
        };
        Outcome {
            unsigned: passed.unsigned || failed.unsigned,
            value,
        }
    }
}

impl Operand for Outcome {
    ghost use Rattle.std.specs.Prelude.{◌≡◌};
    ghost use Rattle.cl_condition.specs.Operators.{level_of};
    ghost use Rattle.cl_condition.specs.Readings.{binary_outcome};

    type Operator = BinaryOperator;

    ghost level = { level_of };

    ghost Joins = { λ operator left right outcome. outcome ≡ binary_outcome operator left right };

    fn level(operator: BinaryOperator) -> u8 {
        operator.level()
    }

    fn join(
        _alloc: Global,
        operator: BinaryOperator,
        left: Outcome,
        right: Outcome,
    ) -> Result<Outcome, NoMemory> {
        Ok(Outcome::binary(operator, left, right))
    }
}

// The number of 64 bits.
fn long(bits: u64) -> Bits
    ensures width { result.width ≡ 64 }
    ensures value { result.value ≡ bits }
{
    Bits {
        width: 64,
        value: bits,
    }
}

fn unary_value(operator: UnaryOperator, bits: u64) -> u64
    ensures { result ≡ unary_value operator bits }
{
    match operator {
        UnaryOperator::Plus => bits,
        UnaryOperator::Minus => long(bits).neg().value,
        UnaryOperator::Complement => long(bits).not().value,
        UnaryOperator::Not => u64::from(bits == 0),
    }
}

// An operator's value at those of its operands. The right one is not asked for where the left one
// decides.
fn evaluated(
    operator: BinaryOperator,
    unsigned: bool,
    left: Option<u64>,
    right: Option<u64>,
) -> Option<u64>
    ensures { result ≡ evaluated operator unsigned left right }
{
    let left = left?;
    if let Some(value) = decided_by(operator, left) {
        return Some(value);
    }
    binary_value(operator, unsigned, left, right?)
}

fn decided_by(operator: BinaryOperator, left: u64) -> Option<u64>
    ensures { result ≡ decided_by operator left }
{
    match operator {
        BinaryOperator::LogicalAnd if left == 0 => Some(0),
        BinaryOperator::LogicalOr if left != 0 => Some(1),
        _ => None,
    }
}

fn binary_value(operator: BinaryOperator, unsigned: bool, left: u64, right: u64) -> Option<u64>
    ensures { result ≡ binary_value operator unsigned left right }
{
    let (a, b) = (long(left), long(right));
    match operator {
        BinaryOperator::Multiply => Some(a.mul(b).value),
        BinaryOperator::Divide => quotient(unsigned, left, right),
        BinaryOperator::Remainder => remainder(unsigned, left, right),
        BinaryOperator::Add => Some(a.add(b).value),
        BinaryOperator::Subtract => Some(a.sub(b).value),
        BinaryOperator::ShiftLeft => Some(a.shl((right % 64) as u32).value),
        BinaryOperator::ShiftRight => Some(moved_down(unsigned, left, right)),
        BinaryOperator::Less => Some(u64::from(is_less(unsigned, left, right))),
        BinaryOperator::Greater => Some(u64::from(is_less(unsigned, right, left))),
        BinaryOperator::LessEqual => Some(u64::from(!is_less(unsigned, right, left))),
        BinaryOperator::GreaterEqual => Some(u64::from(!is_less(unsigned, left, right))),
        BinaryOperator::Equal => Some(u64::from(left == right)),
        BinaryOperator::NotEqual => Some(u64::from(left != right)),
        BinaryOperator::And => Some(left & right),
        BinaryOperator::Xor => Some(left ^ right),
        BinaryOperator::Or => Some(left | right),
        BinaryOperator::LogicalAnd => Some(u64::from(left != 0 && right != 0)),
        BinaryOperator::LogicalOr => Some(u64::from(left != 0 || right != 0)),
    }
}

// Whether the divisor is -1 and the dividend the least number, whose quotient doesn't fit.
fn overflows(left: u64, right: u64) -> bool
    ensures { result ≡ (left == 2 ^ 63) && (right == 2 ^ 64 - 1) }
{
    left == 1 << 63 && right == u64::MAX
}

fn quotient(unsigned: bool, left: u64, right: u64) -> Option<u64>
    ensures { result ≡ (if right == 0 then None else Some (quotient_of unsigned left right)) }
{
    if right == 0 {
        None
    } else if unsigned {
        Some(left / right)
    } else if overflows(left, right) {
        Some(left)
    } else {
        Some(long(left).sdiv(long(right)).value)
    }
}

fn remainder(unsigned: bool, left: u64, right: u64) -> Option<u64>
    ensures { result ≡ (if right == 0 then None else Some (remainder_of unsigned left right)) }
{
    if right == 0 {
        None
    } else if unsigned {
        Some(left % right)
    } else if overflows(left, right) {
        Some(0)
    } else {
        Some(long(left).srem(long(right)).value)
    }
}

fn moved_down(unsigned: bool, left: u64, right: u64) -> u64
    ensures { result ≡ down_of unsigned left right }
{
    let by = (right % 64) as u32;
    if unsigned {
        long(left).lshr(by).value
    } else {
        long(left).ashr(by).value
    }
}

// Whether one number is less than another, as unsigned or as signed ones.
fn is_less(unsigned: bool, left: u64, right: u64) -> bool
    ensures { result ≡ is_less unsigned left right }
{
    if unsigned {
        left < right
    } else {
        long(left).slt(long(right))
    }
}
