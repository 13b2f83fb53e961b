//! Operators on one component.

ghost use Rattle.std.specs.Prelude.{◌≡◌, ◌-◌, ◌^◌, ◌%◌, ◌<◌, true, if◌then◌else◌};
ghost use Rattle.clv_num.specs.Numbers.{srem_of, lshr_of, ashr_of};
ghost use Rattle.cl_tree.specs.Constants.{is_least, quotient, remainder, is_less, yes_of, number_by, unary_of};
ghost use Rattle.cl_types.specs.Layout.{is_width};

use cl_builtins::Gentype;
use cl_types::{BinOp, UnOp};
use clv_num::Bits;

// The greatest pattern of so many bits.
fn greatest(width: u8) -> u64
    requires { is_width width ≡ true }
    ensures { result ≡ 2 ^ width - 1 }
{
    u64::MAX >> (64 - width)
}

/// The pattern of the least signed number of so many bits.
pub fn least(width: u8) -> u64
    requires { is_width width ≡ true }
    ensures { result ≡ 2 ^ (width - 1) }
{
    1 << (width - 1)
}

// What stands for `true`: 1, or -1 in a vector (OpenCL C 1.2, 6.3.d).
fn yes(t: Gentype) -> u64
    requires { is_width t.bits ≡ true }
    ensures { result ≡ yes_of t }
{
    if t.count == 1 { 1 } else { greatest(t.bits) }
}

fn when(test: bool, holds: u64) -> u64
    ensures { result ≡ (if test then holds else 0) }
{
    if test { holds } else { 0 }
}

fn unless(test: bool, holds: u64) -> u64
    ensures { result ≡ (if test then 0 else holds) }
{
    if test { 0 } else { holds }
}

// Whether it is the least number by -1, whose quotient has no pattern.
fn is_least(a: Bits, b: Bits) -> bool
    ensures { result ≡ is_least a.width a.value b.value }
{
    a.value == least(a.width) && b.value == greatest(a.width)
}

#[tactic(auto, using(crate::proofs::Numbers::quotients))]
fn quotient(signed: bool, a: Bits, b: Bits) -> Option<u64>
    requires { a.width ≡ b.width }
    ensures { result ≡ quotient a.width signed a.value b.value }
{
    if b.value == 0 {
        None
    } else if signed {
        if is_least(a, b) {
            None
        } else {
            Some(a.sdiv(b).value)
        }
    } else {
        Some(a.udiv(b).value)
    }
}

#[tactic(auto, using(crate::proofs::Numbers::quotients))]
fn signed_remainder(a: Bits, b: Bits) -> u64
    requires equal { a.width ≡ b.width }
    requires divisor { 0 < b.value }
    ensures { result ≡ srem_of a.width a.value b.value }
{
    if is_least(a, b) { 0 } else { a.srem(b).value }
}

fn remainder(signed: bool, a: Bits, b: Bits) -> Option<u64>
    requires { a.width ≡ b.width }
    ensures { result ≡ remainder a.width signed a.value b.value }
{
    if b.value == 0 {
        None
    } else if signed {
        Some(signed_remainder(a, b))
    } else {
        Some(a.urem(b).value)
    }
}

fn is_less(signed: bool, a: Bits, b: Bits) -> bool
    requires { a.width ≡ b.width }
    ensures { result ≡ is_less a.width signed a.value b.value }
{
    if signed { a.slt(b) } else { a.ult(b) }
}

// By how many places a shift moves: the amount modulo the width (OpenCL C 1.2, 6.3.j).
fn amount(b: Bits) -> u32
    ensures is { result ≡ b.value % b.width }
    ensures low { result < b.width }
{
    (b.value % b.width as u64) as u32
}

fn moved_down(signed: bool, a: Bits, by: u32) -> u64
    requires { by < a.width }
    ensures { result ≡ (if signed then ashr_of a.width a.value by else lshr_of a.width a.value by) }
{
    if signed {
        a.ashr(by).value
    } else {
        a.lshr(by).value
    }
}

/// What an operator makes of two components of a type, none where it divides by zero or out of range
/// (OpenCL C 1.2, 6.3).
pub fn component(op: BinOp, t: Gentype, a: u64, b: u64) -> Option<u64>
    requires { is_width t.bits ≡ true }
    ensures { result ≡ number_by op t a b }
{
    let yes = yes(t);
    let (x, y) = (Bits::new(t.bits, a), Bits::new(t.bits, b));
    match op {
        BinOp::Mul => Some(x.mul(y).value),
        BinOp::Div => quotient(t.signed, x, y),
        BinOp::Rem => remainder(t.signed, x, y),
        BinOp::Add => Some(x.add(y).value),
        BinOp::Sub => Some(x.sub(y).value),
        BinOp::Shl => Some(x.shl(amount(y)).value),
        BinOp::Shr => Some(moved_down(t.signed, x, amount(y))),
        BinOp::Less => Some(when(is_less(t.signed, x, y), yes)),
        BinOp::Greater => Some(when(is_less(t.signed, y, x), yes)),
        BinOp::LessEqual => Some(unless(is_less(t.signed, y, x), yes)),
        BinOp::GreaterEqual => Some(unless(is_less(t.signed, x, y), yes)),
        BinOp::Equal => Some(when(x.value == y.value, yes)),
        BinOp::NotEqual => Some(unless(x.value == y.value, yes)),
        BinOp::And => Some(x.and(y).value),
        BinOp::Xor => Some(x.xor(y).value),
        BinOp::Or => Some(x.or(y).value),
        BinOp::LogicalAnd => Some(u64::from(a != 0 && b != 0)),
        BinOp::LogicalOr => Some(u64::from(a != 0 || b != 0)),
    }
}

/// What an operator makes of one component of so many bits.
pub fn unary(op: UnOp, width: u8, n: u64) -> u64
    requires { is_width width ≡ true }
    ensures { result ≡ unary_of op width n }
{
    match op {
        UnOp::Minus => Bits::new(width, n).neg().value,
        UnOp::Not => Bits::new(width, n).not().value,
        UnOp::LogicalNot => u64::from(n == 0),
        _ => n,
    }
}
