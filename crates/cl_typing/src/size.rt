//! The sizes of groups that functions require.

ghost use Rattle.std.specs.Prelude.{◌≡◌, ◌<◌, ◌||◌, ◌∷◌, [], not, is_some, Some, IfOk, IfErr};
ghost use Rattle.cl_make.specs.Ready.{Grows, IsReady};
ghost use Rattle.cl_scope.specs.Scopes.{IsKnownEnv};
ghost use Rattle.cl_typing.specs.Units.{size_in, is_kernel};
ghost use Rattle.cl_typing.specs.UnitAnswers.{AreAbove0, PositiveIs, PositiveStops, ConstantsAreTyped, ConstantsStop, SizesAreTyped, SizesStop};

use crate::condition::out;
use cl_ast::declaration::FWord;
use cl_ast::expression::Expr;
use cl_constants::{constancy, divides, number_in, positive_in, shape};
use cl_make::Typed;
use cl_scope::Names;
use cl_type_expr::expr;
use cl_types::TypeTable;
use clv_place::{List, Stop};
use std::alloc::Global;

/// The most work items of a group.
const MAX_ITEMS: u64 = 1024;

// The positive number that a typed expression comes to, or none: 334 where it divides by zero or out of range.
fn positive(alloc: Global, typed: &Typed, types: &TypeTable) -> Result<Option<u64>, Stop>
    requires { IsReady types.now typed.now }
    ensures ok { IfOk result (PositiveIs types.now typed.now.tree) }
    ensures out { IfErr result (PositiveStops types.now typed.now.tree) }
{
    types.is_table();
    let value = constancy(alloc, types, &typed.tree)?;
    if let Some(place) = divides(&value) {
        return Err(out(334, place));
    }
    let shape = shape(types, typed.tree.ty);
    Ok(positive_in(shape, number_in(shape, &value)))
}

// What stands in the brackets of a size: positive constants, or none in their place.
fn constants(
    alloc: Global,
    args: &[Expr],
    names: &mut Names,
    types: &mut TypeTable,
) -> Result<List<Option<u64>>, Stop>
    requires known { IsKnownEnv types.old names.old }
    ensures ok { IfOk result (ConstantsAreTyped types.new names.old args.now names.new) }
    ensures out { IfErr result (ConstantsStop types.new names.old args.now) }
    ensures grows { Grows types.old types.new }
{
    types.is_table();
    let mut all = List::new(alloc);
    for arg in args {
        let typed = expr(alloc, arg, false, names, types)?;
        all.push(positive(alloc, &typed, types)?)?;
    }
    Ok(all)
}

// The size of three numbers above 0: none where their product is over 1,024.
#[tactic(auto, using(crate::proofs::Products::products))]
fn size_of(x: u64, y: u64, z: u64) -> Option<[u32; 3]>
    requires first { 0 < x }
    requires second { 0 < y }
    requires third { 0 < z }
    ensures { result ≡ size_in (Some x ∷ Some y ∷ Some z ∷ []) }
{
    if x > MAX_ITEMS {
        return None;
    }
    if y > MAX_ITEMS {
        return None;
    }
    if z > MAX_ITEMS {
        return None;
    }
    if x * y * z > MAX_ITEMS {
        return None;
    }
    Some([x as u32, y as u32, z as u32])
}

// Three positive numbers with a product of at most 1,024.
fn size(numbers: &[Option<u64>]) -> Option<[u32; 3]>
    requires { AreAbove0 numbers.now }
    ensures { result ≡ size_in numbers.now }
{
    match numbers {
        [Some(x), Some(y), Some(z)] => size_of(*x, *y, *z),
        _ => None,
    }
}

// Whether a size breaks 328: one is given already, or it is none.
fn is_no_size(given: bool, size: Option<[u32; 3]>) -> bool
    ensures { result ≡ (given || not (is_some size)) }
{
    given || size.is_none()
}

/// The size that words before a function require, where they do: 328 where it is given already, or isn't three
/// positive constants with a product of at most 1,024 (OpenCL C 1.2, 6.7.2).
pub(crate) fn sizes(
    alloc: Global,
    given: bool,
    all: &[FWord],
    names: &mut Names,
    types: &mut TypeTable,
) -> Result<Option<[u32; 3]>, Stop>
    requires known { IsKnownEnv types.old names.old }
    ensures ok { IfOk result (SizesAreTyped types.new names.old given all.now names.new) }
    ensures out { IfErr result (SizesStop types.new names.old given all.now) }
    ensures grows { Grows types.old types.new }
{
    types.is_table();
    let mut found = None;
    let mut known = given;
    for word in all {
        if let FWord::Required { place, args } = word {
            let numbers = constants(alloc, args, names, types)?;
            let size = size(numbers.as_slice());
            if is_no_size(known, size) {
                return Err(out(328, *place));
            }
            found = size;
            known = true;
        }
    }
    Ok(found)
}

/// Whether words before a function make it a kernel.
pub(crate) fn is_kernel(all: &[FWord]) -> bool
    ensures { result ≡ is_kernel all.now }
{
    for word in all {
        if matches!(word, FWord::Kernel) {
            return true;
        }
    }
    false
}
