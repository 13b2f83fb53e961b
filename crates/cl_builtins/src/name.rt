//! The names of the built-in functions.

ghost use Rattle.std.specs.Prelude.{◌≡◌, codes};
ghost use Rattle.cl_builtins.specs.Names.{lookup, scalars, with_count, types, work_items, arithmetic, bitwise, relations, vectors, fences, atomics, plain, convert_to, conversions, rereadings, before, entries};

use crate::kind::Gentype;
use cl_types::Builtin;

/// How the arguments of a built-in function fit it.
#[derive(Clone, Copy, PartialEq, Eq, Debug)]
pub enum Rule {
    /// No argument, and a `uint`.
    Nothing,
    /// The number of a dimension, and a `uint`.
    Dimension,
    /// The flags of a fence, and no result.
    Fence,
    /// So many values of one type, and one of that type.
    Alike(u8),
    /// So many values of one type, and one of its unsigned form.
    Unsigned(u8),
    /// So many values of one type of 32 bits, and one of that type.
    Narrow(u8),
    /// So many values of one type, or a vector and scalars of its components' type; and one of the first.
    Limited(u8),
    /// High and low halves, and what they are together.
    Upsample,
    /// A value of as many components as this type has, and one of this type.
    Convert(Gentype),
    /// A value of as many bits as this type has, and one of this type.
    Reread(Gentype),
    /// Two values of one type and a value to choose by, and one of that type.
    Select,
    /// A signed value, and an `int`.
    Test,
    /// A number and a pointer, and a vector of so many components.
    Load(u8),
    /// A vector of so many components, a number and a pointer, and no result.
    Store(u8),
    /// A pointer and so many values for what it points to, and such a value.
    Atomic(u8),
}

/// A built-in function, and how its arguments fit it.
pub type Entry = (Builtin, Rule);

fn integer(bits: u8, signed: bool) -> Gentype
    ensures { result ≡ record { bits = bits; signed = signed; count = 1 } }
{
    Gentype {
        bits,
        signed,
        count: 1,
    }
}

#[tactic(auto, unfolding(crate::specs::Names::scalars))]
fn scalar(name: &[u8]) -> Option<Gentype>
    ensures { result ≡ lookup scalars name.now }
{
    if name == b"char".as_slice() {
        Some(integer(8, true))
    } else if name == b"uchar".as_slice() {
        Some(integer(8, false))
    } else if name == b"short".as_slice() {
        Some(integer(16, true))
    } else if name == b"ushort".as_slice() {
        Some(integer(16, false))
    } else if name == b"int".as_slice() {
        Some(integer(32, true))
    } else if name == b"uint".as_slice() {
        Some(integer(32, false))
    } else if name == b"long".as_slice() {
        Some(integer(64, true))
    } else if name == b"ulong".as_slice() {
        Some(integer(64, false))
    } else {
        None
    }
}

// An integer type by its name: a scalar's, or that with how many components there are behind it.
#[tactic(auto, using(crate::proofs::Naming::type_steps))]
fn integer_type(name: &[u8]) -> Option<Gentype>
    ensures { result ≡ lookup types name.now }
{
    if let Some(t) = scalar(name) {
        return Some(t);
    }
    if let Some(t) = vector_type(name, b"2", 2) {
        return Some(t);
    }
    if let Some(t) = vector_type(name, b"3", 3) {
        return Some(t);
    }
    vector_type(name, b"4", 4)
}

#[tactic(auto, using(crate::proofs::Naming::vector_steps))]
fn vector_type(name: &[u8], digits: &[u8], count: u8) -> Option<Gentype>
    ensures { result ≡ lookup (with_count digits.now count) name.now }
{
    match name.strip_suffix(digits) {
        Some(front) => match scalar(front) {
            Some(t) => Some(Gentype { count, ..t }),
            None => None,
        },
        None => None,
    }
}

// Work-items (OpenCL C 1.2, 6.12.1).
#[tactic(auto, unfolding(crate::specs::Names::work_items))]
fn work_item(name: &[u8]) -> Option<Entry>
    ensures { result ≡ lookup work_items name.now }
{
    if name == b"get_work_dim".as_slice() {
        Some((Builtin::GetWorkDim, Rule::Nothing))
    } else if name == b"get_global_size".as_slice() {
        Some((Builtin::GetGlobalSize, Rule::Dimension))
    } else if name == b"get_global_id".as_slice() {
        Some((Builtin::GetGlobalId, Rule::Dimension))
    } else if name == b"get_local_size".as_slice() {
        Some((Builtin::GetLocalSize, Rule::Dimension))
    } else if name == b"get_local_id".as_slice() {
        Some((Builtin::GetLocalId, Rule::Dimension))
    } else if name == b"get_num_groups".as_slice() {
        Some((Builtin::GetNumGroups, Rule::Dimension))
    } else if name == b"get_group_id".as_slice() {
        Some((Builtin::GetGroupId, Rule::Dimension))
    } else if name == b"get_global_offset".as_slice() {
        Some((Builtin::GetGlobalOffset, Rule::Dimension))
    } else {
        None
    }
}

// Integers (6.12.3).
#[tactic(auto, unfolding(crate::specs::Names::arithmetic))]
fn arithmetic(name: &[u8]) -> Option<Entry>
    ensures { result ≡ lookup arithmetic name.now }
{
    if name == b"abs".as_slice() {
        Some((Builtin::Abs, Rule::Unsigned(1)))
    } else if name == b"abs_diff".as_slice() {
        Some((Builtin::AbsDiff, Rule::Unsigned(2)))
    } else if name == b"add_sat".as_slice() {
        Some((Builtin::AddSat, Rule::Alike(2)))
    } else if name == b"sub_sat".as_slice() {
        Some((Builtin::SubSat, Rule::Alike(2)))
    } else if name == b"mad_sat".as_slice() {
        Some((Builtin::MadSat, Rule::Alike(3)))
    } else if name == b"hadd".as_slice() {
        Some((Builtin::Hadd, Rule::Alike(2)))
    } else if name == b"rhadd".as_slice() {
        Some((Builtin::Rhadd, Rule::Alike(2)))
    } else if name == b"min".as_slice() {
        Some((Builtin::Min, Rule::Limited(2)))
    } else if name == b"max".as_slice() {
        Some((Builtin::Max, Rule::Limited(2)))
    } else if name == b"clamp".as_slice() {
        Some((Builtin::Clamp, Rule::Limited(3)))
    } else {
        None
    }
}

// More of them.
#[tactic(auto, unfolding(crate::specs::Names::bitwise))]
fn bitwise(name: &[u8]) -> Option<Entry>
    ensures { result ≡ lookup bitwise name.now }
{
    if name == b"clz".as_slice() {
        Some((Builtin::Clz, Rule::Alike(1)))
    } else if name == b"popcount".as_slice() {
        Some((Builtin::Popcount, Rule::Alike(1)))
    } else if name == b"mul_hi".as_slice() {
        Some((Builtin::MulHi, Rule::Alike(2)))
    } else if name == b"mad_hi".as_slice() {
        Some((Builtin::MadHi, Rule::Alike(3)))
    } else if name == b"mul24".as_slice() {
        Some((Builtin::Mul24, Rule::Narrow(2)))
    } else if name == b"mad24".as_slice() {
        Some((Builtin::Mad24, Rule::Narrow(3)))
    } else if name == b"rotate".as_slice() {
        Some((Builtin::Rotate, Rule::Alike(2)))
    } else if name == b"upsample".as_slice() {
        Some((Builtin::Upsample, Rule::Upsample))
    } else {
        None
    }
}

// Relations (6.12.6).
#[tactic(auto, unfolding(crate::specs::Names::relations))]
fn relation(name: &[u8]) -> Option<Entry>
    ensures { result ≡ lookup relations name.now }
{
    if name == b"any".as_slice() {
        Some((Builtin::Any, Rule::Test))
    } else if name == b"all".as_slice() {
        Some((Builtin::All, Rule::Test))
    } else if name == b"select".as_slice() {
        Some((Builtin::Select { vector: false }, Rule::Select))
    } else {
        None
    }
}

// Vectors in memory (6.12.7).
#[tactic(auto, unfolding(crate::specs::Names::vectors))]
fn vector(name: &[u8]) -> Option<Entry>
    ensures { result ≡ lookup vectors name.now }
{
    if name == b"vload2".as_slice() {
        Some((Builtin::Vload(2), Rule::Load(2)))
    } else if name == b"vload3".as_slice() {
        Some((Builtin::Vload(3), Rule::Load(3)))
    } else if name == b"vload4".as_slice() {
        Some((Builtin::Vload(4), Rule::Load(4)))
    } else if name == b"vstore2".as_slice() {
        Some((Builtin::Vstore(2), Rule::Store(2)))
    } else if name == b"vstore3".as_slice() {
        Some((Builtin::Vstore(3), Rule::Store(3)))
    } else if name == b"vstore4".as_slice() {
        Some((Builtin::Vstore(4), Rule::Store(4)))
    } else {
        None
    }
}

// Barriers and fences (6.12.8 and 6.12.9).
#[tactic(auto, unfolding(crate::specs::Names::fences))]
fn fence(name: &[u8]) -> Option<Entry>
    ensures { result ≡ lookup fences name.now }
{
    if name == b"barrier".as_slice() {
        Some((Builtin::Barrier, Rule::Fence))
    } else if name == b"mem_fence".as_slice() {
        Some((Builtin::MemFence, Rule::Fence))
    } else if name == b"read_mem_fence".as_slice() {
        Some((Builtin::ReadMemFence, Rule::Fence))
    } else if name == b"write_mem_fence".as_slice() {
        Some((Builtin::WriteMemFence, Rule::Fence))
    } else {
        None
    }
}

// Atomics (6.12.11).
#[tactic(auto, unfolding(crate::specs::Names::atomics))]
fn atomic(name: &[u8]) -> Option<Entry>
    ensures { result ≡ lookup atomics name.now }
{
    if name == b"atomic_add".as_slice() {
        Some((Builtin::AtomicAdd, Rule::Atomic(1)))
    } else if name == b"atomic_sub".as_slice() {
        Some((Builtin::AtomicSub, Rule::Atomic(1)))
    } else if name == b"atomic_xchg".as_slice() {
        Some((Builtin::AtomicXchg, Rule::Atomic(1)))
    } else if name == b"atomic_min".as_slice() {
        Some((Builtin::AtomicMin, Rule::Atomic(1)))
    } else if name == b"atomic_max".as_slice() {
        Some((Builtin::AtomicMax, Rule::Atomic(1)))
    } else if name == b"atomic_and".as_slice() {
        Some((Builtin::AtomicAnd, Rule::Atomic(1)))
    } else if name == b"atomic_or".as_slice() {
        Some((Builtin::AtomicOr, Rule::Atomic(1)))
    } else if name == b"atomic_xor".as_slice() {
        Some((Builtin::AtomicXor, Rule::Atomic(1)))
    } else if name == b"atomic_inc".as_slice() {
        Some((Builtin::AtomicInc, Rule::Atomic(0)))
    } else if name == b"atomic_dec".as_slice() {
        Some((Builtin::AtomicDec, Rule::Atomic(0)))
    } else if name == b"atomic_cmpxchg".as_slice() {
        Some((Builtin::AtomicCmpxchg, Rule::Atomic(2)))
    } else {
        None
    }
}

// A function whose name holds none of a type.
#[tactic(auto, using(crate::proofs::Naming::plain_steps))]
fn plain_entry(name: &[u8]) -> Option<Entry>
    ensures { result ≡ lookup plain name.now }
{
    if let Some(entry) = work_item(name) {
        return Some(entry);
    }
    if let Some(entry) = arithmetic(name) {
        return Some(entry);
    }
    if let Some(entry) = bitwise(name) {
        return Some(entry);
    }
    if let Some(entry) = relation(name) {
        return Some(entry);
    }
    if let Some(entry) = vector(name) {
        return Some(entry);
    }
    if let Some(entry) = fence(name) {
        return Some(entry);
    }
    atomic(name)
}

fn convert_to(to: Gentype, sat: bool) -> Entry
    ensures { result ≡ convert_to sat to }
{
    let builtin = Builtin::Convert {
        bits: to.bits,
        signed: to.signed,
        sat,
    };
    (builtin, Rule::Convert(to))
}

// What stands behind `convert_`.
#[tactic(auto, using(crate::proofs::Naming::conversion_steps))]
fn conversion(name: &[u8]) -> Option<Entry>
    ensures { result ≡ lookup conversions name.now }
{
    if let Some(to) = integer_type(name) {
        return Some(convert_to(to, false));
    }
    match name.strip_suffix(b"_sat".as_slice()) {
        Some(front) => match integer_type(front) {
            Some(to) => Some(convert_to(to, true)),
            None => None,
        },
        None => None,
    }
}

// What stands behind `as_`.
#[tactic(auto, using(crate::proofs::Naming::rereading_steps))]
fn rereading(name: &[u8]) -> Option<Entry>
    ensures { result ≡ lookup rereadings name.now }
{
    match integer_type(name) {
        Some(to) => Some((Builtin::As, Rule::Reread(to))),
        None => None,
    }
}

#[tactic(auto, using(crate::proofs::Naming::before_steps))]
fn behind_convert(name: &[u8]) -> Option<Entry>
    ensures { result ≡ lookup (before (codes "convert_") conversions) name.now }
{
    match name.strip_prefix(b"convert_".as_slice()) {
        Some(rest) => conversion(rest),
        None => None,
    }
}

#[tactic(auto, using(crate::proofs::Naming::before_steps))]
fn behind_as(name: &[u8]) -> Option<Entry>
    ensures { result ≡ lookup (before (codes "as_") rereadings) name.now }
{
    match name.strip_prefix(b"as_".as_slice()) {
        Some(rest) => rereading(rest),
        None => None,
    }
}

/// The built-in function of a name.
#[tactic(auto, using(crate::proofs::Naming::entry_steps))]
pub fn entry(name: &[u8]) -> Option<Entry>
    ensures { result ≡ lookup entries name.now }
{
    if let Some(entry) = plain_entry(name) {
        return Some(entry);
    }
    if let Some(entry) = behind_convert(name) {
        return Some(entry);
    }
    behind_as(name)
}
