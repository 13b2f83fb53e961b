//! The private objects of a work-item (C99, 6.2.4; OpenCL C 1.2, 6.5).

ghost use Rattle.std.specs.Prelude.{◌≡◌, ◌<◌, ◌≤◌, [], IfOk, IfSome, None, OnOk, Some, length, option_copied, slice_get};
ghost use Rattle.cl_common.specs.Bytes.{number_at, with_byte, with_number};
ghost use Rattle.cl_meaning.specs.Places.{lone_pointer, place_in};
ghost use Rattle.cl_meaning.specs.Source.{unset};
ghost use Rattle.cl_meaning.specs.States.{with_bytes, with_pointer, with_scalars, with_value, without, without_own};
ghost use Rattle.cl_meaning.specs.Values.{patterns_in};
ghost use Rattle.cl_meaning.specs.Views.{bytes_by, memory_by, object_in};

use crate::entry::Scalar;
use crate::layouts::Layouts;
use crate::pointer::{Name, Pointer, copied_nodes, same_nodes};
use cl_tree::NodeId;
use cl_types::{Scalar as Slot, TypeId};
use clv_place::NoMemory;
use std::alloc::Global;

/// An object of which something was set: its bytes by their offsets, none that is unset, and behind these none is set;
/// and the pointer in it.
#[derive(Drop)]
pub struct Private {
    name: Name,
    bytes: Vec<Option<u8>>,
    pointer: Option<Pointer>,
}

/// The objects of which something was set, each once.
#[derive(Drop)]
pub struct Memory {
    objects: Vec<Private>,
}

// The byte at an offset; none where it isn't set.
fn byte_at(bytes: &[Option<u8>], at: usize) -> Option<u8>
    ensures value { result ≡ bytes_by bytes.now at }
    ensures small { IfSome result (λ byte. byte < 256) }
{
    match bytes.get(at)? {
        Some(byte) => Some(*byte),
        None => None,
    }
}

// The number of so many bytes; none where one of them isn't set.
fn number_at(bytes: &[Option<u8>], at: u32, count: u8) -> Option<u64>
    requires { count ≤ 8 }
    ensures { result ≡ number_at (bytes_by bytes.now) at count }
{
    let mut number = 0;
    for k in (0..count as usize).rev() {
        let byte = byte_at(bytes, at as usize + k)?;
        number = number * 256 + byte as u64;
    }
    Some(number)
}

fn put_byte(bytes: &mut Vec<Option<u8>>, at: usize, byte: u8) -> Result<(), NoMemory>
    ensures { OnOk result (bytes_by bytes.new.items ≡ with_byte at byte (bytes_by bytes.old.items)) }
{
    while bytes.len() <= at {
        bytes.push(None)?;
    }
    bytes[at] = Some(byte);
    Ok(())
}

#[tactic(auto, using(crate::proofs::Privates::next_byte))]
fn put_number(bytes: &mut Vec<Option<u8>>, at: u32, count: u8, n: u64) -> Result<(), NoMemory>
    ensures { OnOk result (bytes_by bytes.new.items ≡ with_number at count n (bytes_by bytes.old.items)) }
{
    let mut left = n;
    for k in 0..count as usize {
        put_byte(bytes, at as usize + k, (left % 256) as u8)?;
        left /= 256;
    }
    Ok(())
}

// Scalars at their offsets; padding keeps its state.
fn put_scalars(
    bytes: &mut Vec<Option<u8>>,
    slots: &[Slot],
    scalars: &[Scalar],
) -> Result<(), NoMemory>
    ensures { OnOk result (bytes_by bytes.new.items ≡ with_scalars slots.now (patterns_in scalars.now) (bytes_by bytes.old.items)) }
{
    let mut slots_left = slots;
    let mut scalars_left = scalars;
    while let [slot, later_slots @ ..] = slots_left {
        let [scalar, later_scalars @ ..] = scalars_left else {
            return Ok(());
        };
        put_number(bytes, slot.offset, slot.bits / 8, scalar.pattern())?;
        slots_left = later_slots;
        scalars_left = later_scalars;
    }
    Ok(())
}

// The pointer that is all of a value.
fn lone_pointer(value: &[Scalar]) -> Option<&Pointer>
    ensures { option_copied result ≡ lone_pointer value.now }
{
    let [scalar] = value else {
        return None;
    };
    match scalar {
        Scalar::Points(p) => Some(p),
        Scalar::Pattern(_) => None,
    }
}

impl Private {
    // Nothing of it is set any more.
    fn clear(&mut self)
        ensures name { self.new.name ≡ self.old.name }
        ensures bytes { self.new.bytes.items ≡ [] }
        ensures pointer { self.new.pointer ≡ None }
    {
        self.bytes.clear();
        self.pointer = None;
    }
}

impl Memory {
    /// Memory in which nothing is set.
    pub fn new(alloc: Global) -> Memory
        ensures { memory_by result ≡ unset }
    {
        Memory {
            objects: Vec::new(alloc),
        }
    }

    fn find(&self, name: &Name) -> Option<&Private>
        ensures { option_copied result ≡ object_in self.now.objects.items name.now }
    {
        for object in self.objects.as_slice() {
            if object.name.is_same(name) {
                return Some(object);
            }
        }
        None
    }

    // How many objects stand before the one of a name, or how many there are.
    #[tactic(auto, using(crate::proofs::Privates::at_place))]
    fn place_of(&self, name: &Name) -> usize
        ensures at { slice_get self.now.objects.items result ≡ object_in self.now.objects.items name.now }
        ensures within { result ≤ length self.now.objects.items }
        ensures first { result ≡ place_in self.now.objects.items name.now }
    {
        let mut place = 0;
        for object in self.objects.as_slice() {
            if object.name.is_same(name) {
                return place;
            }
            place += 1;
        }
        place
    }

    // The place of an object, which is added where nothing of it was set.
    #[tactic(auto, using(crate::proofs::Privates::added, crate::proofs::Privates::at_place))]
    fn place(&mut self, alloc: Global, name: &Name) -> Result<usize, NoMemory>
        ensures kept { OnOk result (memory_by self.new ≡ memory_by self.old) }
        ensures first { IfOk result (λ at. at ≡ place_in self.new.objects.items name.now) }
        ensures within { IfOk result (λ at. at < length self.new.objects.items) }
    {
        let place = self.place_of(name);
        if place == self.objects.len() {
            self.objects.push(Private {
                name: name.copied(alloc)?,
                bytes: Vec::new(alloc),
                pointer: None,
            })?;
        }
        Ok(place)
    }

    /// The number of so many bytes of an object; none where one of them isn't set.
    #[tactic(auto, using(crate::proofs::Replacing::bytes_stand, crate::proofs::Replacing::no_bytes_stand))]
    pub fn number(&self, name: &Name, at: u32, count: u8) -> Option<u64>
        requires { count ≤ 8 }
        ensures { result ≡ number_at ((memory_by self.now).bytes name.now) at count }
    {
        match self.find(name) {
            Some(object) => number_at(&object.bytes, at, count),
            None => number_at(&[], at, count),
        }
    }

    /// Writes so many bytes of a number.
    pub fn put(
        &mut self,
        alloc: Global,
        name: &Name,
        at: u32,
        count: u8,
        n: u64,
    ) -> Result<(), NoMemory>
        ensures { OnOk result (memory_by self.new ≡ with_bytes name.now (with_number at count n ((memory_by self.old).bytes name.now)) (memory_by self.old)) }
    {
        let place = self.place(alloc, name)?;
        put_number(&mut self.objects[place].bytes, at, count, n)
    }

    /// The pointer in an object.
    #[tactic(auto, using(crate::proofs::Privates::pointer_there, crate::proofs::Privates::no_pointer_there))]
    pub fn pointer(&self, name: &Name) -> Option<&Pointer>
        ensures { option_copied result ≡ (memory_by self.now).pointers name.now }
    {
        match self.find(name) {
            Some(object) => match &object.pointer {
                Some(p) => Some(p),
                None => None,
            },
            None => None,
        }
    }

    /// Sets the pointer in an object.
    pub fn point(&mut self, alloc: Global, name: &Name, p: Pointer) -> Result<(), NoMemory>
        ensures { OnOk result (memory_by self.new ≡ with_pointer name.now (Some p) (memory_by self.old)) }
    {
        let place = self.place(alloc, name)?;
        self.objects[place].pointer = Some(p);
        Ok(())
    }

    /// Nothing of an object is set.
    pub fn unset(&mut self, name: &Name)
        ensures { memory_by self.new ≡ without name.now (memory_by self.old) }
    {
        let place = self.place_of(name);
        if place < self.objects.len() {
            self.objects[place].clear();
        }
    }

    /// Nothing is set of what these calls lead to.
    pub fn unset_own(&mut self, calls: &[NodeId])
        ensures { memory_by self.new ≡ without_own calls.now (memory_by self.old) }
    {
        for object in self.objects.iter_mut() {
            if same_nodes(object.name.calls.as_slice(), calls) {
                object.clear();
            }
        }
    }

    /// Sets all bytes of an object from its start on.
    pub fn put_bytes(&mut self, alloc: Global, name: &Name, text: &[u8]) -> Result<(), NoMemory>
        ensures { OnOk result (memory_by self.new ≡ with_bytes name.now (slice_get text.now) (memory_by self.old)) }
    {
        let mut bytes = Vec::new(alloc);
        for byte in text {
            bytes.push(Some(*byte))?;
        }
        let place = self.place(alloc, name)?;
        self.objects[place].bytes = bytes;
        Ok(())
    }

    /// A variable or parameter is set to a value.
    #[tactic(auto, using(crate::proofs::Setting::set_pointer))]
    pub fn set(
        &mut self,
        alloc: Global,
        types: &Layouts<'_>,
        name: &Name,
        ty: TypeId,
        value: &[Scalar],
    ) -> Result<(), NoMemory>
        ensures { OnOk result (memory_by self.new ≡ with_value types.now name.now ty value.now (memory_by self.old)) }
    {
        match lone_pointer(value) {
            Some(p) => self.point(alloc, name, p.copied(alloc)?),
            None => {
                let place = self.place(alloc, name)?;
                put_scalars(&mut self.objects[place].bytes, types.slots(ty), value)
            }
        }
    }
}

/// A parameter's or variable's name in a call.
pub fn name_in(
    alloc: Global,
    calls: &[NodeId],
    is_param: bool,
    number: u32,
) -> Result<Name, NoMemory>
    ensures { IfOk result (λ n. n ≡ record { calls = calls.now; is_param = is_param; number = number }) }
{
    Ok(Name {
        calls: copied_nodes(alloc, calls)?,
        is_param,
        number,
    })
}
