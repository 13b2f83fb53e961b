//! Operators and conversions on the patterns of values.

ghost use Rattle.std.specs.Prelude.{◌≡◌, ◌%◌, ◌^◌, IfOk, replicate};
ghost use Rattle.cl_meaning.specs.ItemRuns.{from};
ghost use Rattle.cl_tree.specs.Constants.{convert_to, joined, repeated, unaries_of};

use crate::wide::{WideShape, WideType};
use cl_constants::component::unary;
use cl_constants::number_to;
use cl_types::UnOp;
use clv_place::{List, NoMemory};
use std::alloc::Global;

/// The low bits of a number.
pub fn cut(bits: u8, n: u64) -> u64
    ensures { result ≡ n % 2 ^ bits }
{
    if bits >= 64 { n } else { n % (1 << bits) }
}

/// So many times one number.
pub fn replicated(alloc: Global, count: usize, n: u64) -> Result<List<u64>, NoMemory>
    ensures { IfOk result (λ ns. ns ≡ replicate count n) }
{
    let mut ns = Vec::new(alloc);
    for _copy in 0..count {
        ns.push(n)?;
    }
    Ok(List::from_vec(ns))
}

fn copied(alloc: Global, ns: &[u64]) -> Result<List<u64>, NoMemory>
    ensures { IfOk result (λ copy. copy ≡ ns.now) }
{
    Ok(List::from_vec(ns.to_vec(alloc)?))
}

/// A number converted, and repeated for a vector; any other value stays.
pub fn converted(
    alloc: Global,
    from: WideShape,
    to: WideShape,
    ns: &[u64],
) -> Result<List<u64>, NoMemory>
    ensures { IfOk result (λ ms. ms ≡ convert_to from to ns.now) }
{
    match ns {
        [n] => {
            let number = number_to(from.shape(), to.element().shape(), *n);
            replicated(alloc, to.count() as usize, number)
        }
        _ => copied(alloc, ns),
    }
}

/// What an operator makes of a value.
pub fn unaries(
    alloc: Global,
    op: UnOp,
    operand: WideType,
    ns: &[u64],
) -> Result<List<u64>, NoMemory>
    ensures { IfOk result (λ ms. ms ≡ unaries_of op operand.bits ns.now) }
{
    let mut made = Vec::new(alloc);
    for n in ns {
        made.push(unary(op, operand.bits(), *n))?;
    }
    Ok(List::from_vec(made))
}

/// The components of values, one behind the other.
#[tactic(auto, using(crate::proofs::Joining::joining))]
pub fn joined(alloc: Global, values: &[List<u64>]) -> Result<List<u64>, NoMemory>
    ensures { IfOk result (λ ns. ns ≡ joined values.now) }
{
    let mut ns = Vec::new(alloc);
    for value in values {
        ns.extend_from_slice(value.as_slice())?;
    }
    Ok(List::from_vec(ns))
}

/// A number repeated; any other value stays.
pub fn repeated(alloc: Global, count: usize, ns: &[u64]) -> Result<List<u64>, NoMemory>
    ensures { IfOk result (λ ms. ms ≡ repeated count ns.now) }
{
    match ns {
        [n] => replicated(alloc, count, *n),
        _ => copied(alloc, ns),
    }
}
