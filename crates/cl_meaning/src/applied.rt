//! Built-in functions that depend on their arguments alone (OpenCL C 1.2, 6.2.4.2, 6.12.3 and 6.12.6).

ghost use Rattle.std.specs.Prelude.{◌≡◌, ◌*◌, ◌/◌, ◌%◌, ◌^◌, ◌<◌, ◌≤◌, ◌∷◌, [], IfOk, map, true};
ghost use Rattle.cl_builtins.specs.Values.{count_of, high_bit, joined, reread_of, takes_width, takes_widths};
ghost use Rattle.cl_common.specs.Operators.{applied, component_at, component_value, cut, each_from};
ghost use Rattle.cl_meaning.specs.ItemRuns.{from};
ghost use Rattle.cl_types.specs.Layout.{is_width};
ghost use Rattle.std.specs.List.{list_all, list_any};

use crate::numbers::cut;
use crate::wide::WideType;
use cl_builtins::value;
use cl_types::Builtin;
use clv_num::Bits;
use clv_place::{List, NoMemory};
use std::alloc::Global;

// The kth component of an argument; a scalar stands for each.
fn component_at(k: usize, ns: &[u64]) -> u64
    ensures { result ≡ component_at k ns.now }
{
    match ns {
        [n] => *n,
        _ => { if k < ns.len() { ns[k] } else { 0 } }
    }
}

// How many arguments a function takes; none where it has no value of one component.
fn count_of(function: Builtin) -> usize
    ensures { result ≡ count_of function }
{
    match function {
        Builtin::Abs | Builtin::Clz | Builtin::Popcount | Builtin::Convert { .. } => 1,
        Builtin::AbsDiff
        | Builtin::AddSat
        | Builtin::SubSat
        | Builtin::Hadd
        | Builtin::Rhadd
        | Builtin::Min
        | Builtin::Max
        | Builtin::MulHi
        | Builtin::Mul24
        | Builtin::Rotate
        | Builtin::Upsample => 2,
        Builtin::MadSat
        | Builtin::Clamp
        | Builtin::MadHi
        | Builtin::Mad24
        | Builtin::Select { .. } => 3,
        _ => 0,
    }
}

fn is_width(width: u8) -> bool
    ensures { result ≡ is_width width }
{
    width == 8 || width == 16 || width == 32 || width == 64
}

// Whether it takes arguments of a width; `convert_R` takes each, where R has one.
fn takes_width(function: Builtin, width: u8) -> bool
    ensures { result ≡ takes_width function width }
{
    match function {
        Builtin::Mul24 | Builtin::Mad24 => width == 32,
        Builtin::Upsample => width < 64,
        Builtin::Convert { bits, .. } => is_width(bits),
        _ => true,
    }
}

// Whether it takes these arguments, the components of which have so many bits.
#[tactic(auto, using(crate::proofs::Applications::taking))]
fn takes(function: Builtin, width: u8, nss: &[List<u64>]) -> bool
    ensures { result ≡ takes_widths function (map (λ n. width) nss.now) }
{
    if nss.is_empty() {
        return false;
    }
    nss.len() == count_of(function) && takes_width(function, width)
}

// What a function makes of the kth components.
#[tactic(auto, using(crate::proofs::Applications::one_component))]
fn component(
    alloc: Global,
    function: Builtin,
    from: WideType,
    nss: &[List<u64>],
    k: usize,
) -> Result<u64, NoMemory>
    ensures { IfOk result (λ n. n ≡ component_value function from (map (component_at k) nss.now)) }
{
    if !takes(function, from.bits(), nss) {
        return Ok(0);
    }
    let mut args = Vec::new(alloc);
    for ns in nss {
        args.push(Bits::new(from.bits(), component_at(k, ns.as_slice())))?;
    }
    Ok(value(function, &args, from.ty().signed).value)
}

#[tactic(auto, using(crate::proofs::Applications::all_components))]
fn components(
    alloc: Global,
    function: Builtin,
    from: WideType,
    to: WideType,
    nss: &[List<u64>],
) -> Result<List<u64>, NoMemory>
    ensures { IfOk result (λ ns. ns ≡ each_from (λ k. component_value function from (map (component_at k) nss.now)) 0 to.count) }
{
    let mut made = Vec::new(alloc);
    for k in 0..to.ty().count as usize {
        made.push(component(alloc, function, from, nss, k)?)?;
    }
    Ok(List::from_vec(made))
}

// A byte of components of so many bytes, the first one lowest; 0 behind them.
#[tactic(auto, using(crate::proofs::Rereading::bytes))]
fn byte_at(width: usize, ns: &[u64], at: usize) -> u64
    requires some { 0 < width }
    requires few { width ≤ 8 }
    ensures { result ≡ (joined (8 * width) (map (cut (8 * width)) ns.now) / 256 ^ at) % 256 }
{
    let k = at / width;
    if k < ns.len() {
        ns[k] >> (at % width * 8) & 255
    } else {
        0
    }
}

// A number of `bytes` bytes from one on.
#[tactic(auto, using(crate::proofs::Rereading::bytes))]
fn number_from(width: usize, ns: &[u64], at: usize, bytes: usize) -> u64
    requires some { 0 < width }
    requires narrow { width ≤ 8 }
    requires few { bytes ≤ 8 }
    requires near { at < 2 ^ 32 }
    ensures { result ≡ (joined (8 * width) (map (cut (8 * width)) ns.now) / 256 ^ at) % 256 ^ bytes }
{
    let mut number = 0;
    for k in 0..bytes {
        number |= byte_at(width, ns, at + k) << (k * 8);
    }
    number
}

// The bits of components in so many components of another width.
#[tactic(auto, using(crate::proofs::Applications::rereading))]
fn reread(alloc: Global, from: WideType, to: WideType, ns: &[u64]) -> Result<List<u64>, NoMemory>
    ensures { IfOk result (λ ms. ms ≡ reread_of from.bits to.bits to.count (map (cut from.bits) ns.now)) }
{
    let width = (from.bits() / 8) as usize;
    let bytes = (to.bits() / 8) as usize;
    let mut made = Vec::new(alloc);
    for k in 0..to.ty().count as usize {
        made.push(number_from(width, ns, k * bytes, bytes))?;
    }
    Ok(List::from_vec(made))
}

fn has_high_bit(width: u8, n: u64) -> bool
    requires { is_width width ≡ true }
    ensures { result ≡ high_bit width n }
{
    n >= 1 << (width - 1)
}

fn any(width: u8, ns: &[u64]) -> bool
    requires { is_width width ≡ true }
    ensures { result ≡ list_any (high_bit width) ns.now }
{
    ns.iter().any(|n| has_high_bit(width, *n))
}

fn all(width: u8, ns: &[u64]) -> bool
    requires { is_width width ≡ true }
    ensures { result ≡ list_all (high_bit width) ns.now }
{
    ns.iter().all(|n| has_high_bit(width, *n))
}

fn one(alloc: Global, n: u64) -> Result<List<u64>, NoMemory>
    ensures { IfOk result (λ ns. ns ≡ n ∷ []) }
{
    let mut ns = List::new(alloc);
    ns.push(n)?;
    Ok(ns)
}

/// The patterns of the value of a built-in function, of arguments of which the first has the components `from`.
#[tactic(auto, using(crate::proofs::Applications::without_arguments))]
pub fn applied(
    alloc: Global,
    function: Builtin,
    from: WideType,
    to: WideType,
    nss: &[List<u64>],
) -> Result<List<u64>, NoMemory>
    ensures { IfOk result (λ ns. ns ≡ applied function from to nss.now) }
{
    match function {
        Builtin::As => match nss {
            [ns, ..] => reread(alloc, from, to, ns.as_slice()),
            _ => components(alloc, function, from, to, nss),
        },
        Builtin::Any => match nss {
            [ns, ..] => one(alloc, u64::from(any(from.bits(), ns.as_slice()))),
            _ => components(alloc, function, from, to, nss),
        },
        Builtin::All => match nss {
            [ns, ..] => one(alloc, u64::from(all(from.bits(), ns.as_slice()))),
            _ => components(alloc, function, from, to, nss),
        },
        _ => components(alloc, function, from, to, nss),
    }
}
