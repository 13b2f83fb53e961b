//! Operands, and what operators make of them.

ghost use Rattle.std.specs.Prelude.{◌≡◌, [], true, if◌then◌else◌, IfOk};
ghost use Rattle.cl_tree.specs.declared.constant.Constancy.TheVariants.{Is, Varies};
ghost use Rattle.cl_tree.specs.declared.constant.Operands.TheVariants.{Are};
ghost use Rattle.cl_tree.specs.Constants.{when_arithmetic, convert_to, converted, has_value, unaries_of, gentype_in, negated, or_divides, components_of, calculated, chosen, literal};
ghost use Rattle.cl_constants.specs.Operands.{and_next};
ghost use Rattle.cl_constants.specs.Widths.{has_width};

use crate::conversion::{count_in, gentype_in, is_arithmetic, shape};
use crate::list::{components, converted_to, copied, is_zero, joined, repeated, unaries};
use cl_tree::{Constancy, Operands, Shape};
use cl_types::{BinOp, TypeId, TypeTable, UnOp};
use clv_place::{List, NoMemory, Place};
use std::alloc::Global;

/// No operands.
pub(crate) fn no_operands(alloc: Global) -> Operands
    ensures { result ≡ Are [] [] }
{
    Operands::Are {
        types: List::new(alloc),
        values: List::new(alloc),
    }
}

/// Operands with the next one.
pub(crate) fn and_next(operands: Operands, ty: TypeId, is: Constancy) -> Result<Operands, NoMemory>
    ensures { IfOk result (λ o. o ≡ and_next operands ty is) }
{
    match operands {
        Operands::Vary => Ok(Operands::Vary),
        Operands::Divide(place) => match is {
            Constancy::Varies => Ok(Operands::Vary),
            _ => Ok(Operands::Divide(place)),
        },
        Operands::Are {
            mut types,
            mut values,
        } => match is {
            Constancy::Varies => Ok(Operands::Vary),
            Constancy::Divides(place) => Ok(Operands::Divide(place)),
            Constancy::Is(ns) => {
                types.push(ty)?;
                values.push(ns)?;
                Ok(Operands::Are { types, values })
            }
        },
    }
}

// An operand converted to an arithmetic type.
fn converted_value(alloc: Global, from: Shape, to: Shape, ns: &[u64]) -> Result<Constancy, NoMemory>
    requires from { has_width from ≡ true }
    requires to { has_width to ≡ true }
    ensures { IfOk result (λ c. c ≡ when_arithmetic to (Is (convert_to from to ns.now))) }
{
    if is_arithmetic(to) {
        Ok(Constancy::Is(converted_to(alloc, from, to, ns)?))
    } else {
        Ok(Constancy::Varies)
    }
}

/// What a conversion to this type makes of its operand.
pub(crate) fn converted(
    alloc: Global,
    types: &TypeTable,
    to: Shape,
    operands: Operands,
) -> Result<Constancy, NoMemory>
    requires { has_width to ≡ true }
    ensures { IfOk result (λ c. c ≡ converted to types.now operands) }
{
    match operands {
        Operands::Vary => Ok(Constancy::Varies),
        Operands::Divide(place) => Ok(Constancy::Divides(place)),
        Operands::Are { types: ts, values } => match (ts.as_slice(), values.as_slice()) {
            ([t], [ns]) => converted_value(alloc, shape(types, *t), to, ns.as_slice()),
            _ => Ok(Constancy::Varies),
        },
    }
}

// Whether an operator on one operand has a value in a constant expression.
fn has_value(op: UnOp) -> bool
    ensures { result ≡ has_value op }
{
    match op {
        UnOp::Plus | UnOp::Minus | UnOp::Not | UnOp::LogicalNot => true,
        _ => false,
    }
}

// What an operator makes of a value of this type.
fn negated_value(alloc: Global, op: UnOp, from: Shape, ns: &[u64]) -> Result<Constancy, NoMemory>
    requires { has_width from ≡ true }
    ensures { IfOk result (λ c. c ≡ (if has_value op then Is (unaries_of op (gentype_in from).bits ns.now) else Varies)) }
{
    if has_value(op) {
        Ok(Constancy::Is(unaries(alloc, op, gentype_in(from).bits, ns)?))
    } else {
        Ok(Constancy::Varies)
    }
}

/// What an operator makes of its one operand.
pub(crate) fn negated(
    alloc: Global,
    types: &TypeTable,
    op: UnOp,
    operands: Operands,
) -> Result<Constancy, NoMemory>
    ensures { IfOk result (λ c. c ≡ negated op types.now operands) }
{
    match operands {
        Operands::Vary => Ok(Constancy::Varies),
        Operands::Divide(place) => {
            if has_value(op) {
                Ok(Constancy::Divides(place))
            } else {
                Ok(Constancy::Varies)
            }
        }
        Operands::Are { types: ts, values } => match (ts.as_slice(), values.as_slice()) {
            ([t], [ns]) => negated_value(alloc, op, shape(types, *t), ns.as_slice()),
            _ => Ok(Constancy::Varies),
        },
    }
}

// What an operator at a place makes of two values, of which the first is of this type.
fn calculated_value(
    alloc: Global,
    op: BinOp,
    place: Place,
    from: Shape,
    left: &[u64],
    right: &[u64],
) -> Result<Constancy, NoMemory>
    requires { has_width from ≡ true }
    ensures { IfOk result (λ c. c ≡ or_divides place (components_of op (gentype_in from) left.now right.now)) }
{
    match components(alloc, op, gentype_in(from), left, right)? {
        Some(ns) => Ok(Constancy::Is(ns)),
        None => Ok(Constancy::Divides(place)),
    }
}

/// What an operator at a place makes of its two operands.
pub(crate) fn calculated(
    alloc: Global,
    types: &TypeTable,
    op: BinOp,
    place: Place,
    operands: Operands,
) -> Result<Constancy, NoMemory>
    ensures { IfOk result (λ c. c ≡ calculated op place types.now operands) }
{
    match operands {
        Operands::Vary => Ok(Constancy::Varies),
        Operands::Divide(first) => Ok(Constancy::Divides(first)),
        Operands::Are { types: ts, values } => match (ts.as_slice(), values.as_slice()) {
            ([t, _], [ns, ms]) => calculated_value(
                alloc,
                op,
                place,
                shape(types, *t),
                ns.as_slice(),
                ms.as_slice(),
            ),
            _ => Ok(Constancy::Varies),
        },
    }
}

/// What `?:` makes of its three operands.
pub(crate) fn chosen(alloc: Global, operands: Operands) -> Result<Constancy, NoMemory>
    ensures { IfOk result (λ c. c ≡ chosen operands) }
{
    match operands {
        Operands::Vary => Ok(Constancy::Varies),
        Operands::Divide(place) => Ok(Constancy::Divides(place)),
        Operands::Are { values, .. } => match values.as_slice() {
            [test, passed, failed] => {
                let ns = if is_zero(test.as_slice()) {
                    failed
                } else {
                    passed
                };
                Ok(Constancy::Is(copied(alloc, ns.as_slice())?))
            }
            _ => Ok(Constancy::Varies),
        },
    }
}

/// What a vector literal of this type makes of its operands.
pub(crate) fn literal(alloc: Global, to: Shape, operands: Operands) -> Result<Constancy, NoMemory>
    ensures { IfOk result (λ c. c ≡ literal to operands) }
{
    match operands {
        Operands::Vary => Ok(Constancy::Varies),
        Operands::Divide(place) => Ok(Constancy::Divides(place)),
        Operands::Are { values, .. } => {
            let ns = joined(alloc, values.as_slice())?;
            Ok(Constancy::Is(repeated(alloc, count_in(to), ns.as_slice())?))
        }
    }
}
