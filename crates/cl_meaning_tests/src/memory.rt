//! Bytes that work-items share.

use cl_tree::{Event, Shared, Spot, Tree};
use cl_types::Builtin;
use clv_place::NoMemory;
use std::alloc::Global;

// An object of a group's local memory: its bytes so far, where they were set (OpenCL C 1.2, 6.5.2).
#[derive(Drop)]
struct Local {
    group: u32,
    object: Shared,
    bytes: Vec<Option<u8>>,
}

/// The buffers of a launch, and the local memory of its groups.
#[derive(Drop)]
pub(crate) struct Memory {
    alloc: Global,
    pub(crate) buffers: Vec<Vec<u8>>,
    locals: Vec<Local>,
}

// A sign bit that is turned orders signed numbers as unsigned ones.
const SIGN: u32 = 0x8000_0000;

fn low(number: u64) -> u32 {
    let [a, b, c, d, ..] = number.to_le_bytes();
    u32::from_le_bytes([a, b, c, d])
}

// What an atomic leaves where this stood (OpenCL C 1.2, 6.12.11).
fn left(op: Builtin, signed: bool, old: u32, args: &[u64]) -> Option<u32> {
    let first = match args.first() {
        Some(number) => low(*number),
        None => 1,
    };
    let less = if signed {
        (first ^ SIGN) < (old ^ SIGN)
    } else {
        first < old
    };
    match op {
        Builtin::AtomicAdd | Builtin::AtomicInc => Some(old.wrapping_add(first)),
        Builtin::AtomicSub | Builtin::AtomicDec => Some(old.wrapping_sub(first)),
        Builtin::AtomicXchg => Some(first),
        Builtin::AtomicMin => Some(if less { first } else { old }),
        Builtin::AtomicMax => Some(if less { old } else { first }),
        Builtin::AtomicAnd => Some(old & first),
        Builtin::AtomicOr => Some(old | first),
        Builtin::AtomicXor => Some(old ^ first),
        Builtin::AtomicCmpxchg => match args.get(1) {
            Some(number) => Some(if old == first { low(*number) } else { old }),
            None => None,
        },
        _ => None,
    }
}

fn is_same(local: &Local, group: u32, object: Shared) -> bool {
    local.group == group && local.object == object
}

// Sets a byte, before which all are there, if unset.
fn set_at(bytes: &mut Vec<Option<u8>>, at: usize, byte: u8) -> Result<(), NoMemory> {
    for _missing in bytes.len()..at {
        bytes.push(None)?;
    }
    match bytes.get_mut(at) {
        Some(place) => *place = Some(byte),
        None => bytes.push(Some(byte))?,
    }
    Ok(())
}

impl Memory {
    pub(crate) fn new(alloc: Global, buffers: Vec<Vec<u8>>) -> Memory {
        Memory {
            alloc,
            buffers,
            locals: Vec::new(alloc),
        }
    }

    fn local_byte(&self, group: u32, object: Shared, at: usize) -> Option<u8> {
        for local in self.locals.as_slice() {
            if is_same(local, group, object) {
                return *local.bytes.get(at)?;
            }
        }
        None
    }

    // A byte of an object, where it is set.
    fn byte(&self, tree: &Tree, group: u32, object: Shared, at: usize) -> Option<u8> {
        match object {
            Shared::Buffer(k) => self.buffers.get(k as usize)?.get(at).copied(),
            Shared::Constant(k) => tree.constants.get(k as usize)?.bytes.get(at),
            _ => self.local_byte(group, object, at),
        }
    }

    fn set_local(
        &mut self,
        group: u32,
        object: Shared,
        at: usize,
        byte: u8,
    ) -> Result<(), NoMemory> {
        for local in self.locals.iter_mut() {
            if is_same(local, group, object) {
                return set_at(&mut local.bytes, at, byte);
            }
        }
        let mut bytes = Vec::new(self.alloc);
        set_at(&mut bytes, at, byte)?;
        self.locals.push(Local {
            group,
            object,
            bytes,
        })?;
        Ok(())
    }

    fn set_buffer(&mut self, k: usize, at: usize, byte: u8) {
        if let Some(bytes) = self.buffers.get_mut(k) {
            if let Some(place) = bytes.get_mut(at) {
                *place = byte;
            }
        }
    }

    fn set(&mut self, group: u32, object: Shared, at: usize, byte: u8) -> Result<(), NoMemory> {
        match object {
            Shared::Buffer(k) => {
                self.set_buffer(k as usize, at, byte);
                Ok(())
            }
            _ => self.set_local(group, object, at, byte),
        }
    }

    // The number at a spot, where all of its bytes are set.
    fn number(&self, tree: &Tree, group: u32, at: Spot) -> Option<u64> {
        let mut number = 0u64;
        for k in (0..at.bits / 8).rev() {
            let place = (at.offset as usize).wrapping_add(k as usize);
            let byte = self.byte(tree, group, at.object, place)?;
            number = (number << 8) | byte as u64;
        }
        Some(number)
    }

    fn write(&mut self, group: u32, at: Spot, number: u64) -> Result<(), NoMemory> {
        let bytes = number.to_le_bytes();
        for (k, byte) in bytes.iter().enumerate().take(at.bits as usize / 8) {
            let place = (at.offset as usize).wrapping_add(k);
            self.set(group, at.object, place, *byte)?;
        }
        Ok(())
    }

    /// Does what a work-item asks, and answers it: none where a byte was never set, and at a barrier.
    pub(crate) fn does(
        &mut self,
        tree: &Tree,
        group: u32,
        event: &Event,
    ) -> Result<Option<u64>, NoMemory> {
        match event {
            Event::Read { at } => Ok(self.number(tree, group, *at)),
            Event::Write { at, value } => {
                self.write(group, *at, *value)?;
                Ok(Some(0))
            }
            Event::Atomic {
                op,
                signed,
                at,
                args,
            } => {
                let Some(old) = self.number(tree, group, *at) else {
                    return Ok(None);
                };
                if let Some(new) = left(*op, *signed, low(old), args.as_slice()) {
                    self.write(group, *at, new as u64)?;
                }
                Ok(Some(old))
            }
            Event::Free { .. } => Ok(Some(0)),
            Event::Barrier { .. } => Ok(None),
        }
    }
}
