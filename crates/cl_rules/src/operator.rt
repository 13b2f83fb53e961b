//! The rules of operators.

ghost use Rattle.std.specs.Prelude.{◌≡◌, IfOk};
ghost use Rattle.cl_rules.specs.Operators.{signed, negated, dereferenced, space_or_private, addressed, is_fixed, stepped, unary, beside, alike_vectors, meet, is_unlike, is_outranked, met, both, own_types, calculated, apart, compared, related, joined, amount_beside, amount, is_none, outranks, amount_wanted, shifted, moved, added, subtracted, binary};
ghost use Rattle.cl_tree.specs.Facts.{is_writable, has_address};

use crate::operand::{
    common, integers, is_arithmetic, one, part, place, same_target, seen, to_array, two, type_of,
    unless, value,
};
use crate::rule::{Amount, Head, Judged, Meeting, Operand, Want};
use cl_builtins::Gentype;
use cl_tree::{Facts, Shape, promoted, relation_type};
use cl_types::{BinOp, Space, UnOp};
use clv_place::{List, NoMemory};
use std::alloc::Global;

// ---- operators on one operand

fn signed(alloc: Global, op: UnOp, o: Operand) -> Result<Judged, NoMemory>
    ensures { IfOk result (λ j. j ≡ signed op o) }
{
    let wide = integers(promoted(type_of(o.shape)));
    let made = value(one(alloc, wide)?, Head::Unary(op), wide);
    Ok(unless(&[(308, !is_arithmetic(o.shape))], made))
}

fn negated(alloc: Global, o: Operand) -> Result<Judged, NoMemory>
    ensures { IfOk result (λ j. j ≡ negated o) }
{
    let made = value(
        one(alloc, Want::Own)?,
        Head::Unary(UnOp::LogicalNot),
        integers(Gentype::int()),
    );
    Ok(unless(&[(308, !o.shape.is_number())], made))
}

/// `*`, which is no pointer's and no array's by 313.
pub fn dereferenced(alloc: Global, o: Operand, s: Shape) -> Result<Judged, NoMemory>
    ensures { IfOk result (λ j. j ≡ dereferenced o s) }
{
    match s {
        Shape::Pointer {
            space,
            to,
            readonly,
            ..
        } => Ok(Judged::Makes(place(
            one(alloc, Want::Own)?,
            Head::Unary(UnOp::Deref),
            Want::Type(to),
            space,
            readonly,
        ))),
        Shape::Array { elem, .. } => Ok(Judged::Makes(part(
            one(alloc, Want::Own)?,
            Head::Unary(UnOp::Deref),
            Want::Type(elem),
            o,
        ))),
        _ => Ok(Judged::Broken(313)),
    }
}

/// The address space that is named, or private memory.
pub fn space_or_private(space: Option<Space>) -> Space
    ensures { result ≡ space_or_private space }
{
    match space {
        Some(s) => s,
        None => Space::Private,
    }
}

fn has_address(f: Facts, s: Shape) -> bool
    ensures { result ≡ has_address f s }
{
    f.lies.is_some()
        && !f.component
        && !s.is_void()
        && !s.is_bool()
        && !s.is_array()
        && !s.is_pointer()
}

fn addressed(alloc: Global, o: Operand) -> Result<Judged, NoMemory>
    ensures { IfOk result (λ j. j ≡ addressed o) }
{
    let pointer = Shape::Pointer {
        space: space_or_private(o.facts.lies),
        to: o.facts.ty,
        readonly: o.readonly,
        restricted: false,
    };
    let made = value(
        one(alloc, Want::Own)?,
        Head::Unary(UnOp::Address),
        Want::Of(pointer),
    );
    Ok(unless(&[(312, !has_address(o.facts, o.shape))], made))
}

fn is_writable(lies: Option<Space>) -> bool
    ensures { result ≡ is_writable lies }
{
    match lies {
        None => false,
        Some(Space::Constant) => false,
        Some(_) => true,
    }
}

// Whether an operand can't be written: it is no place, const, or in constant memory.
pub(crate) fn is_fixed(o: Operand) -> bool
    ensures { result ≡ is_fixed o }
{
    o.readonly || !is_writable(o.facts.lies)
}

fn stepped(alloc: Global, op: UnOp, o: Operand) -> Result<Judged, NoMemory>
    ensures { IfOk result (λ j. j ≡ stepped op o) }
{
    let made = value(
        one(alloc, Want::Own)?,
        Head::Unary(op),
        Want::Type(o.facts.ty),
    );
    Ok(unless(&[(308, !o.shape.is_steppable()), (310, is_fixed(o))], made))
}

/// An operator on one operand (C99, 6.5.2.4 and 6.5.3): 308 to 310, 312, 313. None of `sizeof`, which has a rule of
/// its own.
pub fn unary(alloc: Global, op: UnOp, o: Operand) -> Result<Option<Judged>, NoMemory>
    ensures { IfOk result (λ j. j ≡ unary op o) }
{
    match op {
        UnOp::Plus | UnOp::Minus | UnOp::Not => Ok(Some(signed(alloc, op, o)?)),
        UnOp::LogicalNot => Ok(Some(negated(alloc, o)?)),
        UnOp::Deref => Ok(Some(dereferenced(alloc, o, o.shape)?)),
        UnOp::Address => Ok(Some(addressed(alloc, o)?)),
        UnOp::PreInc | UnOp::PreDec | UnOp::PostInc | UnOp::PostDec => {
            Ok(Some(stepped(alloc, op, o)?))
        }
        UnOp::Sizeof => Ok(None),
    }
}

// ---- operators between two operands

fn beside(t: Gentype, s: Shape) -> Meeting
    ensures { result ≡ beside t s }
{
    if t.bits < s.rank() {
        Meeting::Outranked
    } else {
        Meeting::Meet(t)
    }
}

fn alike_vectors(t: Gentype, x: Gentype) -> Meeting
    ensures { result ≡ alike_vectors t x }
{
    if t.is_same(x) {
        Meeting::Meet(t)
    } else {
        Meeting::Unlike
    }
}

// The type of two operands together.
pub(crate) fn meet(a: Shape, b: Shape) -> Meeting
    ensures { result ≡ meet a b }
{
    if a.is_number() && b.is_number() {
        Meeting::Meet(type_of(a).usual(type_of(b)))
    } else if a.is_vector() && b.is_vector() {
        alike_vectors(type_of(a), type_of(b))
    } else if a.is_vector() && b.is_number() {
        beside(type_of(a), b)
    } else if a.is_number() && b.is_vector() {
        beside(type_of(b), a)
    } else {
        Meeting::Unlike
    }
}

pub(crate) fn is_unlike(m: Meeting) -> bool
    ensures { result ≡ is_unlike m }
{
    match m {
        Meeting::Unlike => true,
        _ => false,
    }
}

pub(crate) fn is_outranked(m: Meeting) -> bool
    ensures { result ≡ is_outranked m }
{
    match m {
        Meeting::Outranked => true,
        _ => false,
    }
}

pub(crate) fn met(m: Meeting) -> Gentype
    ensures { result ≡ met m }
{
    match m {
        Meeting::Meet(t) => t,
        _ => Gentype::int(),
    }
}

fn both(alloc: Global, want: Want) -> Result<List<Want>, NoMemory>
    ensures { IfOk result (λ ws. ws ≡ both want) }
{
    two(alloc, want, want)
}

pub(crate) fn own_types(alloc: Global) -> Result<List<Want>, NoMemory>
    ensures { IfOk result (λ ws. ws ≡ own_types) }
{
    two(alloc, Want::Own, Want::Own)
}

fn calculated(alloc: Global, op: BinOp, m: Meeting) -> Result<Judged, NoMemory>
    ensures { IfOk result (λ j. j ≡ calculated op m) }
{
    let wide = integers(met(m));
    let made = value(both(alloc, wide)?, Head::Binary(op), wide);
    Ok(unless(&[(308, is_unlike(m)), (309, is_outranked(m))], made))
}

fn apart(alloc: Global, op: BinOp, a: Operand, b: Operand) -> Result<Judged, NoMemory>
    ensures { IfOk result (λ j. j ≡ apart op a b) }
{
    let pointer = Want::Of(common(seen(a), seen(b)));
    let made = value(
        both(alloc, pointer)?,
        Head::Binary(op),
        integers(Gentype::int()),
    );
    Ok(unless(
        &[
            (303, to_array(a) || to_array(b)),
            (308, !same_target(seen(a), seen(b))),
        ],
        made,
    ))
}

fn compared(alloc: Global, op: BinOp, m: Meeting) -> Result<Judged, NoMemory>
    ensures { IfOk result (λ j. j ≡ compared op m) }
{
    let made = value(
        both(alloc, integers(met(m)))?,
        Head::Binary(op),
        integers(relation_type(met(m))),
    );
    Ok(unless(&[(308, is_unlike(m)), (309, is_outranked(m))], made))
}

fn related(alloc: Global, op: BinOp, a: Operand, b: Operand) -> Result<Judged, NoMemory>
    ensures { IfOk result (λ j. j ≡ related op a b) }
{
    if seen(a).is_pointer() && seen(b).is_pointer() {
        apart(alloc, op, a, b)
    } else {
        compared(alloc, op, meet(a.shape, b.shape))
    }
}

fn joined(alloc: Global, op: BinOp, a: Operand, b: Operand) -> Result<Judged, NoMemory>
    ensures { IfOk result (λ j. j ≡ joined op a b) }
{
    let made = value(
        own_types(alloc)?,
        Head::Binary(op),
        integers(Gentype::int()),
    );
    let numbers = a.shape.is_number() && b.shape.is_number();
    Ok(unless(&[(308, !numbers)], made))
}

fn amount_beside(t: Gentype, s: Shape) -> Amount
    ensures { result ≡ amount_beside t s }
{
    if t.bits < s.rank() {
        Amount::TooWide
    } else {
        Amount::Wanted(integers(t))
    }
}

// What is wanted of the amount of a shift.
pub(crate) fn amount(a: Shape, b: Shape) -> Amount
    ensures { result ≡ amount a b }
{
    if a.is_number() && b.is_number() {
        Amount::Wanted(integers(promoted(type_of(b))))
    } else if a.is_vector() && b.is_vector() {
        if type_of(a).count == type_of(b).count {
            Amount::Wanted(Want::Own)
        } else {
            Amount::NoAmount
        }
    } else if a.is_vector() && b.is_number() {
        amount_beside(type_of(a), b)
    } else {
        Amount::NoAmount
    }
}

pub(crate) fn is_none(amount: Amount) -> bool
    ensures { result ≡ is_none amount }
{
    match amount {
        Amount::NoAmount => true,
        _ => false,
    }
}

pub(crate) fn outranks(amount: Amount) -> bool
    ensures { result ≡ outranks amount }
{
    match amount {
        Amount::TooWide => true,
        _ => false,
    }
}

pub(crate) fn amount_wanted(amount: Amount) -> Want
    ensures { result ≡ amount_wanted amount }
{
    match amount {
        Amount::Wanted(want) => want,
        _ => Want::Own,
    }
}

fn shifted(alloc: Global, op: BinOp, a: Shape, b: Shape) -> Result<Judged, NoMemory>
    ensures { IfOk result (λ j. j ≡ shifted op a b) }
{
    let by = amount(a, b);
    let wide = integers(promoted(type_of(a)));
    let made = value(two(alloc, wide, amount_wanted(by))?, Head::Binary(op), wide);
    Ok(unless(&[(308, is_none(by)), (309, outranks(by))], made))
}

fn moved(op: BinOp, o: Operand, wants: List<Want>) -> Judged
    ensures { result ≡ moved op o wants }
{
    let made = value(wants, Head::Binary(op), Want::Of(seen(o)));
    unless(&[(303, to_array(o))], made)
}

fn added(alloc: Global, a: Operand, b: Operand) -> Result<Judged, NoMemory>
    ensures { IfOk result (λ j. j ≡ added a b) }
{
    if seen(a).is_pointer() && b.shape.is_number() {
        let wants = two(alloc, Want::Of(seen(a)), Want::Own)?;
        Ok(moved(BinOp::Add, a, wants))
    } else if a.shape.is_number() && seen(b).is_pointer() {
        let wants = two(alloc, Want::Own, Want::Of(seen(b)))?;
        Ok(moved(BinOp::Add, b, wants))
    } else {
        calculated(alloc, BinOp::Add, meet(a.shape, b.shape))
    }
}

fn subtracted(alloc: Global, a: Operand, b: Operand) -> Result<Judged, NoMemory>
    ensures { IfOk result (λ j. j ≡ subtracted a b) }
{
    if seen(a).is_pointer() && b.shape.is_number() {
        let wants = two(alloc, Want::Of(seen(a)), Want::Own)?;
        Ok(moved(BinOp::Sub, a, wants))
    } else if seen(a).is_pointer() && seen(b).is_pointer() {
        apart(alloc, BinOp::Sub, a, b)
    } else {
        calculated(alloc, BinOp::Sub, meet(a.shape, b.shape))
    }
}

/// An operator between two operands (C99, 6.5.5 to 6.5.14; OpenCL C 1.2, 6.3): 303, 308, 309.
pub fn binary(alloc: Global, op: BinOp, a: Operand, b: Operand) -> Result<Judged, NoMemory>
    ensures { IfOk result (λ j. j ≡ binary op a b) }
{
    match op {
        BinOp::Add => added(alloc, a, b),
        BinOp::Sub => subtracted(alloc, a, b),
        BinOp::Shl | BinOp::Shr => shifted(alloc, op, a.shape, b.shape),
        BinOp::Less
        | BinOp::Greater
        | BinOp::LessEqual
        | BinOp::GreaterEqual
        | BinOp::Equal
        | BinOp::NotEqual => related(alloc, op, a, b),
        BinOp::LogicalAnd | BinOp::LogicalOr => joined(alloc, op, a, b),
        BinOp::Mul | BinOp::Div | BinOp::Rem | BinOp::And | BinOp::Xor | BinOp::Or => {
            calculated(alloc, op, meet(a.shape, b.shape))
        }
    }
}
