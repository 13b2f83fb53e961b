//! Names with room in memory for what they hold: what the files in memory are made of.

ghost use Rattle.std.specs.Prelude.{◌≡◌, ◌<◌, ◌≤◌, [], length, max, position, option_copied, IfOk, OnOk, OnErr};
ghost use Rattle.clv_io.specs.Files.{Lacks};
ghost use Rattle.clv_io.specs.Holdings.{Gets, is_named, holding_of, held_by, room_by, with_room, with_bytes};

use crate::files::StoreFault;
use clv_place::NoMemory;
use std::alloc::Global;
use std::marker::Model;

/// A name, and room for its bytes. A name can have room and hold nothing.
#[derive(Drop)]
struct Slot {
    name: String,
    bytes: Vec<u8>,
    is_held: bool,
    room: usize,
}

impl Model for Slot {
    ghost use Rattle.std.specs.Prelude.{◌≤◌, string_bytes, vec_len, vec_capacity};
    ghost use Rattle.clv_io.specs.Holdings.{Holding, held_if};

    ghost Value = { Holding };

    ghost view = { λ slot. record { name = string_bytes slot.name; held = held_if slot.is_held slot.bytes.items; room = slot.room } };

    ghost invariant = { λ slot. (vec_len slot.bytes ≤ slot.room) × (slot.room ≤ vec_capacity slot.bytes) };
}

impl Slot {
    /// A name that holds nothing, with this room.
    fn new(alloc: Global, name: &str, room: usize) -> Result<Slot, NoMemory>
        ensures { IfOk result (λ slot. slot ≡ record { name = name.now; held = None; room = room }) }
    {
        Ok(Slot {
            name: String::from_str(alloc, name)?,
            bytes: Vec::with_capacity(alloc, room)?,
            is_held: false,
            room,
        })
    }

    fn is_named(&self, name: &str) -> bool
        ensures { result ≡ is_named name.now self.now }
    {
        self.name.as_str() == name
    }

    fn contents(&self) -> Option<&[u8]>
        ensures { option_copied result ≡ self.now.held }
    {
        if self.is_held {
            Some(&self.bytes)
        } else {
            None
        }
    }

    /// Makes the room this large, where it is smaller.
    fn reserve(&mut self, room: usize) -> Result<(), NoMemory>
        ensures ok { OnOk result (self.new ≡ record self.old { room = max self.old.room room }) }
        ensures err { OnErr result (self.new ≡ self.old) }
    {
        if self.room < room {
            self.bytes.reserve_exact(room - self.bytes.len())?;
            self.room = room;
        }
        Ok(())
    }

    /// Sets the bytes, where the room is enough for them. It takes no memory.
    fn write(&mut self, bytes: &[u8]) -> Result<(), StoreFault>
        ensures ok { OnOk result (self.new ≡ record self.old { held = Some bytes.now }) }
        ensures fits { OnOk result (length bytes.now ≤ self.old.room) }
        ensures full { OnErr result (self.old.room < length bytes.now) }
        ensures err { OnErr result (self.new ≡ self.old) }
    {
        if self.room < bytes.len() {
            return Err(StoreFault);
        }
        self.bytes.clear();
        self.bytes.extend_from_slice(bytes).unwrap();
        self.is_held = true;
        Ok(())
    }
}

/// The index of a name's slot.
fn find(slots: &[Slot], name: &str) -> Option<usize>
    ensures { result ≡ position (is_named name.now) slots.now }
{
    slots.iter().position(|slot| slot.is_named(name))
}

/// Slots by name. A contract sees it as the list of what they hold.
#[derive(Drop)]
pub(crate) struct Shelf {
    slots: Vec<Slot>,
}

impl Model for Shelf {
    ghost use Rattle.std.specs.Prelude.{List};
    ghost use Rattle.clv_io.specs.Holdings.{Holding};

    ghost Value = { List Holding };

    ghost view = { λ shelf. shelf.slots.items };
}

impl Shelf {
    /// No slot. It takes no memory.
    pub(crate) fn new(alloc: Global) -> Self
        ensures { result ≡ [] }
    {
        Shelf {
            slots: Vec::new(alloc),
        }
    }

    /// The bytes that a name holds, and none exactly where it holds nothing.
    pub(crate) fn contents(&self, name: &str) -> Option<&[u8]>
        ensures { option_copied result ≡ held_by (holding_of self.now name.now) }
    {
        let at = find(&self.slots, name)?;
        self.slots[at].contents()
    }

    /// Gives a name at least this room, and leaves what it holds. For want of memory it changes
    /// nothing.
    pub(crate) fn reserve(&mut self, alloc: Global, name: &str, room: usize) -> Result<(), NoMemory>
        ensures ok { OnOk result (Gets self.old self.new (with_room self.old name.now room)) }
        ensures err { OnErr result (self.new ≡ self.old) }
    {
        match find(&self.slots, name) {
            Some(at) => self.slots[at].reserve(room),
            None => {
                self.slots.push(Slot::new(alloc, name, room)?)?;
                Ok(())
            }
        }
    }

    /// Sets the bytes of a name that has room for them. Where it hasn't, it changes nothing. It takes
    /// no memory.
    pub(crate) fn write(&mut self, name: &str, bytes: &[u8]) -> Result<(), StoreFault>
        ensures ok { OnOk result (Gets self.old self.new (with_bytes self.old name.now bytes.now)) }
        ensures fits { OnOk result (¬ (Lacks (room_by (holding_of self.old name.now)) (length bytes.now))) }
        ensures full { OnErr result (Lacks (room_by (holding_of self.old name.now)) (length bytes.now)) }
        ensures err { OnErr result (self.new ≡ self.old) }
    {
        match find(&self.slots, name) {
            Some(at) => self.slots[at].write(bytes),
            None => Err(StoreFault),
        }
    }
}
