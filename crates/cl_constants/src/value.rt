//! What is asked of constant expressions.

ghost use Rattle.std.specs.Prelude.{◌≡◌, true, IfOk};
ghost use Rattle.cl_tree.specs.Constants.{divides, number_in, number_of, positive_in, positive_of};
ghost use Rattle.cl_constants.specs.Widths.{has_width};

use crate::conversion::{is_negative, shape};
use crate::folding::constancy;
use cl_tree::{Constancy, Shape, TExpr};
use cl_types::TypeTable;
use clv_place::{NoMemory, Place};
use std::alloc::Global;

/// Where a constant expression divides by zero or out of range; none where it doesn't, or is none.
pub fn divides(is: &Constancy) -> Option<Place>
    ensures { result ≡ divides is.now }
{
    match is {
        Constancy::Divides(place) => Some(*place),
        _ => None,
    }
}

/// The pattern of a constant of a type that is `bool` or an integer scalar; none of any other.
pub fn number_in(shape: Shape, is: &Constancy) -> Option<u64>
    ensures { result ≡ number_in shape is.now }
{
    match is {
        Constancy::Is(ns) => match ns.as_slice() {
            [n] if shape.is_number() => Some(*n),
            _ => None,
        },
        _ => None,
    }
}

/// A number that is above 0 in its type. Integers have 8, 16, 32 or 64 bits.
pub fn positive_in(shape: Shape, n: Option<u64>) -> Option<u64>
    requires { has_width shape ≡ true }
    ensures { result ≡ positive_in shape n }
{
    let n = n?;
    if n == 0 || is_negative(shape, n) {
        None
    } else {
        Some(n)
    }
}

/// The pattern of an expression that is a constant number: of `bool` or an integer scalar type.
#[tactic(auto, using(crate::proofs::Nodes::values))]
pub fn number(alloc: Global, types: &TypeTable, e: &TExpr) -> Result<Option<u64>, NoMemory>
    ensures { IfOk result (λ n. n ≡ number_of types.now e.now) }
{
    let is = constancy(alloc, types, e)?;
    Ok(number_in(shape(types, e.ty), &is))
}

/// The pattern of an expression that is a constant number above 0.
#[tactic(auto, using(crate::proofs::Nodes::values))]
pub fn positive(alloc: Global, types: &TypeTable, e: &TExpr) -> Result<Option<u64>, NoMemory>
    ensures { IfOk result (λ n. n ≡ positive_of types.now e.now) }
{
    let shape = shape(types, e.ty);
    let is = constancy(alloc, types, e)?;
    Ok(positive_in(shape, number_in(shape, &is)))
}
