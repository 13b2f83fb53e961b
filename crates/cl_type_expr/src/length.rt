//! Lengths of arrays.

ghost use Rattle.std.specs.Prelude.{◌≡◌, if◌then◌else◌, IfOk, IfErr};
ghost use Rattle.cl_words.specs.declared.naming.Length.TheVariants.{Open, Wrong};
ghost use Rattle.cl_make.specs.Ready.{IsReady};
ghost use Rattle.cl_type_expr.specs.Typing.{IsLengthOf, LengthOfStops};

use crate::node::out;
use cl_constants::{constancy, divides, number_in, positive_in, shape};
use cl_make::Typed;
use cl_types::TypeTable;
use cl_words::{Length, length_from};
use clv_place::Stop;
use std::alloc::Global;

// A length that is missing, where it may or not.
pub(crate) fn missing(may: bool) -> Length
    ensures { result ≡ (if may then Open else Wrong) }
{
    if may { Length::Open } else { Length::Wrong }
}

// The length that a typed expression says: 334 where it divides by zero or out of range.
pub(crate) fn length_of(alloc: Global, typed: &Typed, types: &TypeTable) -> Result<Length, Stop>
    requires { IsReady types.now typed.now }
    ensures ok { IfOk result (IsLengthOf types.now typed.now.tree) }
    ensures out { IfErr result (LengthOfStops types.now typed.now.tree) }
{
    types.is_table();
    let value = constancy(alloc, types, &typed.tree)?;
    if let Some(place) = divides(&value) {
        return Err(out(334, place));
    }
    let shape = shape(types, typed.tree.ty);
    Ok(length_from(positive_in(shape, number_in(shape, &value))))
}
