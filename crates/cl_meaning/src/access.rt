//! Reading and writing scalars (C99, 6.5; OpenCL C 1.2, 6.1.5 and 6.1.7).

ghost use Rattle.std.specs.Prelude.{◌≡◌, ◌≤◌, IfOk, IfSome, List, OnOk, slice_index};
ghost use Rattle.cl_meaning.specs.Effects.{bits_in, component_effect, effect_of, extent_of, greatest, part_in};
ghost use Rattle.cl_meaning.specs.Tasks.{Read, Write};
ghost use Rattle.cl_meaning.specs.Views.{Comes, answered_by, appended_on, item_by, part_by, reached_by, surroundings_by};
ghost use Rattle.cl_types.specs.declared.types.ClType.{ClType};

use crate::did::{Did, Then};
use crate::entry::{Entry, Scalar, pattern_at};
use crate::item::{Item, Surroundings};
use crate::layouts::Layouts;
use crate::numbers::cut;
use crate::pointer::{Object, Pointer};
use crate::wide::WideType;
use cl_constants::component::component;
use cl_tree::{Event, Spot};
use cl_types::{BinOp, Scalar as Slot, TypeId};
use clv_place::{List, NoMemory};

/// A scalar of what is accessed: so far behind the place, of so many bits.
#[derive(Clone, Copy)]
struct Part {
    far: u32,
    bits: u8,
}

fn bits_in(slots: &[Slot]) -> u8
    ensures { result ≡ bits_in slots.now }
{
    match slots {
        [] => 0,
        [slot, ..] => slot.bits,
    }
}

#[tactic(auto, using(crate::proofs::Accesses::greatest_of))]
fn greatest(ns: &[u8]) -> u8
    ensures { result ≡ greatest ns.now }
{
    let mut best = 0u8;
    for n in ns {
        best = best.max(*n);
    }
    best
}

// A selected component; 0 where there is none.
fn component_at(at: &[u8], k: usize) -> u8
    ensures { result ≡ slice_index at.now k }
{
    if k < at.len() { at[k] } else { 0 }
}

// Scalar k of a type, or of the components that are selected of a vector.
fn part_in(types: &Layouts<'_>, ty: TypeId, at: &Option<List<u8>>, k: usize) -> Part
    ensures { part_by result ≡ part_in types.now ty at.now k }
{
    let slots = types.slots(ty);
    match at {
        None => match slots.get(k) {
            Some(slot) => Part {
                far: slot.offset,
                bits: slot.bits,
            },
            None => Part { far: 0, bits: 0 },
        },
        Some(at) => {
            let bits = bits_in(slots);
            Part {
                far: component_at(at.as_slice(), k) as u32 * (bits / 8) as u32,
                bits,
            }
        }
    }
}

// How many bytes are accessed.
fn extent_of(types: &Layouts<'_>, ty: TypeId, at: &Option<List<u8>>) -> u32
    ensures { result ≡ extent_of types.now ty at.now }
{
    match at {
        None => types.size(ty),
        Some(at) => {
            let last = greatest(at.as_slice()) as u32;
            (last + 1) * (bits_in(types.slots(ty)) / 8) as u32
        }
    }
}

// Where scalar k stands of what is accessed, which must be inside of the array, and its bits, at most 64.
#[tactic(auto, using(crate::proofs::Narrowing::narrow_part))]
fn reached(
    types: &Layouts<'_>,
    ty: TypeId,
    k: usize,
    p: &Pointer,
    at: &Option<List<u8>>,
) -> Option<(u32, u8)>
    ensures is { result ≡ reached_by (extent_of types.now ty at.now) (part_in types.now ty at.now k) p.now }
    ensures narrow { IfSome result (λ r. r.1 ≤ 64) }
{
    types.is_table();
    let part = part_in(types, ty, at, k);
    let extent = extent_of(types, ty, at);
    let within = part.far as u64 + (part.bits / 8) as u64 <= extent as u64;
    if p.is_inside(extent) && within {
        Some((p.offset + part.far, part.bits))
    } else {
        None
    }
}

impl<'a> Item<'a> {
    // The newest value has one scalar more.
    pub fn append(&mut self, n: u64) -> Result<(), NoMemory>
        ensures { OnOk result ((cs : List ClType) → item_by cs self.new ≡ appended_on n (item_by cs self.old) self.old.stack) }
    {
        let Some(entry) = self.stack.pop() else {
            return Ok(());
        };
        match entry {
            Entry::Value(mut v) => {
                v.push(Scalar::Pattern(n))?;
                self.stack.push(Entry::Value(v))
            }
            _ => self.stack.push(entry),
        }
    }

    // In shared memory a scalar is asked for, and the answer cut to its bits; in private memory it must be set.
    pub fn read(&mut self, s: Surroundings<'a>, ty: TypeId, k: usize) -> Result<Did, NoMemory>
        ensures { IfOk result (λ did. Comes (effect_of (surroundings_by s.entry) (Read ty k) (item_by s.entry.types.now self.old)) did (item_by s.entry.types.now self.new)) }
    {
        let [Entry::Place(p, at), Entry::Value(_)] = self.stack.newest(2) else {
            return Ok(Did::Went);
        };
        let Some((offset, bits)) = reached(s.types, ty, k, p, at) else {
            return Ok(Did::Undefined);
        };
        match &p.object {
            Object::InShared(object) => {
                let at = Spot {
                    object: *object,
                    offset,
                    bits,
                };
                Ok(Did::Asks {
                    event: Event::Read { at },
                    then: Then::Append { bits },
                })
            }
            Object::InPrivate(name) => match self.memory.number(name, offset, bits / 8) {
                None => Ok(Did::Undefined),
                Some(n) => {
                    self.append(n)?;
                    Ok(Did::Went)
                }
            },
        }
    }

    pub fn write(&mut self, s: Surroundings<'a>, ty: TypeId, k: usize) -> Result<Did, NoMemory>
        ensures { IfOk result (λ did. Comes (effect_of (surroundings_by s.entry) (Write ty k) (item_by s.entry.types.now self.old)) did (item_by s.entry.types.now self.new)) }
    {
        let [Entry::Place(p, at), Entry::Value(v)] = self.stack.newest(2) else {
            return Ok(Did::Went);
        };
        let Some((offset, bits)) = reached(s.types, ty, k, p, at) else {
            return Ok(Did::Undefined);
        };
        let value = pattern_at(v.as_slice(), k);
        match &p.object {
            Object::InShared(object) => {
                let at = Spot {
                    object: *object,
                    offset,
                    bits,
                };
                Ok(Did::Asks {
                    event: Event::Write { at, value },
                    then: Then::Nothing,
                })
            }
            Object::InPrivate(name) => {
                self.memory.put(s.alloc, name, offset, bits / 8, value)?;
                Ok(Did::Went)
            }
        }
    }

    // A quotient or remainder by zero or out of range is unspecified.
    pub fn component(&mut self, op: BinOp, operands: WideType, k: usize) -> Result<Did, NoMemory>
        ensures { IfOk result (λ did. (cs : List ClType) → Comes (component_effect op operands k (item_by cs self.old) self.old.stack) did (item_by cs self.new)) }
    {
        let [Entry::Value(a), Entry::Value(b), Entry::Value(_)] = self.stack.newest(3) else {
            return Ok(Did::Went);
        };
        let (a, b) = (pattern_at(a.as_slice(), k), pattern_at(b.as_slice(), k));
        match component(op, operands.ty(), a, b) {
            None => {
                let bits = operands.bits();
                Ok(Did::Picks {
                    bits,
                    then: Then::Append { bits },
                })
            }
            Some(n) => {
                self.append(n)?;
                Ok(Did::Went)
            }
        }
    }

    /// Goes on with an answer, or with an unspecified value.
    pub fn answer(&mut self, s: Surroundings<'a>, then: Then, x: u64) -> Result<(), NoMemory>
        ensures { OnOk result ((cs : List ClType) → item_by cs self.new ≡ answered_by then x (item_by cs self.old)) }
    {
        match then {
            Then::Nothing => Ok(()),
            Then::Append { bits } => self.append(cut(bits, x)),
            Then::Give { bits } => self.stack.push(Entry::number(s.alloc, cut(bits, x))?),
        }
    }
}
