//! Operators and conversions on the components of values.

ghost use Rattle.std.specs.Prelude.{◌≡◌, ◌++◌, replicate, true, IfOk, OnOk};
ghost use Rattle.cl_tree.specs.Constants.{components_of, unaries_of, convert_to, joined, repeated, is_zero};
ghost use Rattle.cl_types.specs.Layout.{is_width};
ghost use Rattle.cl_constants.specs.Widths.{has_width};

use crate::component::{component, unary};
use crate::conversion::{count_in, element_shape, number_to};
use cl_builtins::Gentype;
use cl_tree::Shape;
use cl_types::{BinOp, UnOp};
use clv_place::{List, NoMemory};
use std::alloc::Global;

/// What an operator makes of two values of a type, none where it divides by zero or out of range in a component.
#[tactic(auto, using(crate::proofs::Lists::components))]
pub(crate) fn components(
    alloc: Global,
    op: BinOp,
    t: Gentype,
    left: &[u64],
    right: &[u64],
) -> Result<Option<List<u64>>, NoMemory>
    requires { is_width t.bits ≡ true }
    ensures { IfOk result (λ ns. ns ≡ components_of op t left.now right.now) }
{
    let mut so_far = Vec::new(alloc);
    for at in 0..left.len().min(right.len()) {
        match component(op, t, left[at], right[at]) {
            Some(n) => so_far.push(n)?,
            None => return Ok(None),
        }
    }
    Ok(Some(List::from_vec(so_far)))
}

/// What an operator makes of a value, of which the components have so many bits.
pub(crate) fn unaries(alloc: Global, op: UnOp, width: u8, ns: &[u64]) -> Result<List<u64>, NoMemory>
    requires { is_width width ≡ true }
    ensures { IfOk result (λ ms. ms ≡ unaries_of op width ns.now) }
{
    let mut made = Vec::new(alloc);
    for n in ns {
        made.push(unary(op, width, *n))?;
    }
    Ok(List::from_vec(made))
}

/// The components of a value.
pub(crate) fn copied(alloc: Global, ns: &[u64]) -> Result<List<u64>, NoMemory>
    ensures { IfOk result (λ ms. ms ≡ ns.now) }
{
    Ok(List::from_vec(ns.to_vec(alloc)?))
}

// So many components that are one number.
fn replicated(alloc: Global, count: u8, n: u64) -> Result<List<u64>, NoMemory>
    ensures { IfOk result (λ ns. ns ≡ replicate count n) }
{
    let mut ns = Vec::new(alloc);
    for _copy in 0..count {
        ns.push(n)?;
    }
    Ok(List::from_vec(ns))
}

/// A number repeated; any other value stays.
pub(crate) fn repeated(alloc: Global, count: u8, ns: &[u64]) -> Result<List<u64>, NoMemory>
    ensures { IfOk result (λ ms. ms ≡ repeated count ns.now) }
{
    match ns {
        [n] => replicated(alloc, count, *n),
        _ => copied(alloc, ns),
    }
}

/// A number converted, and repeated for a vector; any other value stays.
pub(crate) fn converted_to(
    alloc: Global,
    from: Shape,
    to: Shape,
    ns: &[u64],
) -> Result<List<u64>, NoMemory>
    requires from { has_width from ≡ true }
    requires to { has_width to ≡ true }
    ensures { IfOk result (λ ms. ms ≡ convert_to from to ns.now) }
{
    match ns {
        [n] => replicated(alloc, count_in(to), number_to(from, element_shape(to), *n)),
        _ => copied(alloc, ns),
    }
}

/// The components of values, one behind the other.
#[tactic(auto, using(crate::proofs::Lists::joining))]
pub(crate) fn joined(alloc: Global, values: &[List<u64>]) -> Result<List<u64>, NoMemory>
    ensures { IfOk result (λ ns. ns ≡ joined values.now) }
{
    let mut ns = Vec::new(alloc);
    for value in values {
        ns.extend_from_slice(value.as_slice())?;
    }
    Ok(List::from_vec(ns))
}

/// Whether a test fails: its number is 0.
pub(crate) fn is_zero(ns: &[u64]) -> bool
    ensures { result ≡ is_zero ns.now }
{
    match ns {
        [n] => *n == 0,
        _ => true,
    }
}
