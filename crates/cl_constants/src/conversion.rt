//! The shapes of types, and numbers that are converted between them.

ghost use Rattle.std.specs.Prelude.{◌≡◌, true};
ghost use Rattle.cl_tree.specs.Shapes.{shape_of};
ghost use Rattle.cl_tree.specs.Constants.{number_to, element_shape, count_in, gentype_in, is_arithmetic, is_negative};
ghost use Rattle.cl_types.specs.Layout.{is_width};
ghost use Rattle.cl_constants.specs.Widths.{has_width};

use crate::component::least;
use cl_builtins::Gentype;
use cl_tree::Shape;
use cl_types::{TypeId, TypeTable};
use clv_num::Bits;

/// What a type is: `void` where the table has no type of this number. Its integers have 8, 16, 32 or 64 bits.
#[tactic(auto, using(crate::proofs::Widths::widths))]
pub fn shape(types: &TypeTable, t: TypeId) -> Shape
    ensures is { result ≡ shape_of types.now t }
    ensures width { has_width result ≡ true }
{
    types.is_table();
    if (t.0 as usize) < types.len() {
        Shape::of(types, t)
    } else {
        Shape::Void
    }
}

/// A number of one type as a number of another: cut or extended to its bits, or for `bool` whether it isn't 0
/// (OpenCL C 1.2, 6.2; C99, 6.3.1). Integers have 8, 16, 32 or 64 bits.
pub fn number_to(from: Shape, to: Shape, n: u64) -> u64
    requires from { has_width from ≡ true }
    requires to { has_width to ≡ true }
    ensures { result ≡ number_to from to n }
{
    match (from, to) {
        (_, Shape::Bool) => u64::from(n != 0),
        (Shape::Integers(f), Shape::Integers(t)) => {
            Bits::new(f.bits, n).convert(f.signed, t.bits).value
        }
        _ => n,
    }
}

/// The shape of the components of a vector; any other shape stays.
pub(crate) fn element_shape(shape: Shape) -> Shape
    ensures is { result ≡ element_shape shape }
    ensures width { has_width result ≡ has_width shape }
{
    match shape {
        Shape::Integers(t) => Shape::Integers(t.element()),
        _ => shape,
    }
}

/// How many components a value has.
pub(crate) fn count_in(shape: Shape) -> u8
    ensures { result ≡ count_in shape }
{
    match shape {
        Shape::Integers(t) => t.count,
        _ => 1,
    }
}

/// The integer type of an operand; what is no integer counts as `uchar`.
pub(crate) fn gentype_in(shape: Shape) -> Gentype
    ensures { result ≡ gentype_in shape }
{
    match shape {
        Shape::Integers(t) => t,
        _ => Gentype {
            bits: 8,
            signed: false,
            count: 1,
        },
    }
}

/// Whether it is `bool` or an integer scalar or vector.
pub(crate) fn is_arithmetic(shape: Shape) -> bool
    ensures { result ≡ is_arithmetic shape }
{
    match shape {
        Shape::Bool | Shape::Integers(_) => true,
        _ => false,
    }
}

/// Whether a number is below 0 in this type.
pub(crate) fn is_negative(shape: Shape, n: u64) -> bool
    requires { has_width shape ≡ true }
    ensures { result ≡ is_negative shape n }
{
    match shape {
        Shape::Integers(t) => t.signed && least(t.bits) <= n,
        _ => false,
    }
}
