//! Objects, and pointers into them (C99, 6.2.4 and 6.5.6).

ghost use Rattle.std.specs.Prelude.{◌≡◌, ◌+◌, ◌-◌, if◌then◌else◌, IfOk, None, Some, nat_le};
ghost use Rattle.cl_builtins.specs.Kinds.{alike};
ghost use Rattle.cl_common.specs.Events.{same_node, same_nodes, same_shared};
ghost use Rattle.cl_meaning.specs.Values.{amount_in, amount_of, is_inside, moved, opposite, part_of, same_array, same_name, same_object, whole_of};

use crate::wide::WideShape;
use cl_tree::{NodeId, Shape, Shared};
use clv_num::Bits;
use clv_place::{List, NoMemory};
use std::alloc::Global;

/// A private variable or parameter by its number in its function, and the calls that are pending where it lives, the
/// innermost first. Since no function reaches itself, each call has objects of its own.
#[derive(Drop)]
pub struct Name {
    pub calls: List<NodeId>,
    pub is_param: bool,
    pub number: u32,
}

#[derive(Drop)]
pub enum Object {
    InShared(Shared),
    InPrivate(Name),
}

/// An object, an offset in bytes, and where the innermost array begins and ends that the pointer points into; what
/// is no array is an array of one (C99, 6.5.6). A place is the same.
#[derive(Drop)]
pub struct Pointer {
    pub object: Object,
    pub offset: u32,
    pub start: u32,
    pub end: u32,
}

/// An exact number, forth or back.
#[derive(Clone, Copy)]
pub enum Amount {
    Forth(u64),
    Back(u64),
}

/// Whether both hold, or neither.
pub fn alike(a: bool, b: bool) -> bool
    ensures { result ≡ alike a b }
{
    if a { b } else { !b }
}

fn same_node(a: NodeId, b: NodeId) -> bool
    ensures { result ≡ same_node a b }
{
    a.function == b.function && a.node == b.node
}

/// Whether these are the same nodes.
#[tactic(auto, using(crate::proofs::Calls::only_left))]
pub fn same_nodes(a: &[NodeId], b: &[NodeId]) -> bool
    ensures { result ≡ same_nodes a.now b.now }
{
    let mut left = a;
    let mut right = b;
    while let ([m, ms @ ..], [n, ns @ ..]) = (left, right) {
        if !same_node(*m, *n) {
            return false;
        }
        left = ms;
        right = ns;
    }
    left.is_empty() && right.is_empty()
}

fn same_shared(a: Shared, b: Shared) -> bool
    ensures { result ≡ same_shared a b }
{
    match (a, b) {
        (Shared::Buffer(a), Shared::Buffer(b)) => a == b,
        (Shared::Constant(a), Shared::Constant(b)) => a == b,
        (Shared::LocalArgument(a), Shared::LocalArgument(b)) => a == b,
        (Shared::LocalVariable(a), Shared::LocalVariable(b)) => a == b,
        _ => false,
    }
}

/// A copy of nodes.
pub fn copied_nodes(alloc: Global, nodes: &[NodeId]) -> Result<List<NodeId>, NoMemory>
    ensures { IfOk result (λ copy. copy ≡ nodes.now) }
{
    Ok(List::from_vec(nodes.to_vec(alloc)?))
}

impl Name {
    /// Whether two names are one.
    pub fn is_same(&self, other: &Name) -> bool
        ensures { result ≡ same_name self.now other.now }
    {
        self.number == other.number
            && alike(self.is_param, other.is_param)
            && same_nodes(self.calls.as_slice(), other.calls.as_slice())
    }

    /// A copy of the name.
    pub fn copied(&self, alloc: Global) -> Result<Name, NoMemory>
        ensures { IfOk result (λ copy. copy ≡ self.now) }
    {
        Ok(Name {
            calls: copied_nodes(alloc, self.calls.as_slice())?,
            is_param: self.is_param,
            number: self.number,
        })
    }
}

impl Object {
    fn is_same(&self, other: &Object) -> bool
        ensures { result ≡ same_object self.now other.now }
    {
        match (self, other) {
            (Object::InShared(a), Object::InShared(b)) => same_shared(*a, *b),
            (Object::InPrivate(a), Object::InPrivate(b)) => a.is_same(b),
            _ => false,
        }
    }

    fn copied(&self, alloc: Global) -> Result<Object, NoMemory>
        ensures { IfOk result (λ copy. copy ≡ self.now) }
    {
        match self {
            Object::InShared(shared) => Ok(Object::InShared(*shared)),
            Object::InPrivate(name) => Ok(Object::InPrivate(name.copied(alloc)?)),
        }
    }
}

/// The number that a pattern of this type stands for.
pub fn amount_in(shape: WideShape, n: u64) -> Amount
    ensures { result ≡ amount_in shape n }
{
    match shape.shape() {
        Shape::Integers(t) if t.signed => signed_amount(Bits::new(t.bits, n).signed()),
        _ => Amount::Forth(n),
    }
}

fn signed_amount(exact: i64) -> Amount
    ensures { result ≡ amount_of exact }
{
    if exact < 0 {
        Amount::Back(exact.unsigned_abs())
    } else {
        Amount::Forth(exact as u64)
    }
}

impl Amount {
    /// The number with the other sign.
    pub fn opposite(self) -> Amount
        ensures { result ≡ opposite self }
    {
        match self {
            Amount::Forth(n) => Amount::Back(n),
            Amount::Back(n) => Amount::Forth(n),
        }
    }
}

impl Pointer {
    /// The whole of an object of so many bytes.
    pub fn whole_of(object: Object, size: u32) -> Pointer
        ensures { result ≡ whole_of object size }
    {
        Pointer {
            object,
            offset: 0,
            start: 0,
            end: size,
        }
    }

    /// A copy of the pointer.
    pub fn copied(&self, alloc: Global) -> Result<Pointer, NoMemory>
        ensures { IfOk result (λ copy. copy ≡ self.now) }
    {
        Ok(Pointer {
            object: self.object.copied(alloc)?,
            offset: self.offset,
            start: self.start,
            end: self.end,
        })
    }

    /// So many elements of `size` bytes further. It is undefined where this leaves the array and isn't one past its
    /// end either.
    pub fn moved(self, by: Amount, size: u32) -> Option<Pointer>
        ensures { result ≡ moved by size self }
    {
        match by {
            Amount::Forth(n) => self.moved_forth(n as u128 * size as u128),
            Amount::Back(n) => self.moved_back(n as u128 * size as u128),
        }
    }

    fn moved_forth(self, bytes: u128) -> Option<Pointer>
        ensures { result ≡ (if nat_le (self.offset + bytes) self.end then Some (record self { offset = self.offset + bytes }) else None) }
    {
        if self.offset <= self.end && bytes <= (self.end - self.offset) as u128 {
            Some(Pointer {
                offset: self.offset + bytes as u32,
                ..self
            })
        } else {
            None
        }
    }

    fn moved_back(self, bytes: u128) -> Option<Pointer>
        ensures { result ≡ (if nat_le (self.start + bytes) self.offset then Some (record self { offset = self.offset - bytes }) else None) }
    {
        if self.start <= self.offset && bytes <= (self.offset - self.start) as u128 {
            Some(Pointer {
                offset: self.offset - bytes as u32,
                ..self
            })
        } else {
            None
        }
    }

    /// Whether so many bytes there are inside of the array.
    pub fn is_inside(&self, bytes: u32) -> bool
        ensures { result ≡ is_inside bytes self.now }
    {
        self.start <= self.offset && self.offset as u64 + bytes as u64 <= self.end as u64
    }

    /// A part of the `whole` bytes there, `far` behind their start: an array of its own, of so many bytes. It is
    /// undefined where the whole isn't inside.
    pub fn part_of(self, whole: u32, far: u32, bytes: u32) -> Option<Pointer>
        ensures { result ≡ part_of whole far bytes self }
    {
        if self.is_inside(whole) && far as u64 + bytes as u64 <= whole as u64 {
            let start = self.offset + far;
            Some(Pointer {
                object: self.object,
                offset: start,
                start,
                end: start + bytes,
            })
        } else {
            None
        }
    }

    /// Whether two pointers point into one array.
    pub fn is_in_array_of(&self, other: &Pointer) -> bool
        ensures { result ≡ same_array self.now other.now }
    {
        self.object.is_same(&other.object) && self.start == other.start && self.end == other.end
    }
}
