//! The two name spaces of declarations.

ghost use Rattle.std.specs.Prelude.{◌≡◌, true, OnOk};
ghost use Rattle.cl_scope.specs.Places.{place_in, has_room_in, HasNoneIn, AreSameIn, IsMovedIn};

use crate::places::Places;
use clv_place::NoMemory;
use std::alloc::Global;

/// Where the newest declaration of each name stands: tags of structs beside all other names (C99, 6.2.3).
#[derive(Drop)]
pub struct NameSpaces {
    names: Places,
    tags: Places,
}

impl NameSpaces {
    /// No name stands anywhere. It takes no memory.
    pub fn new(alloc: Global) -> Self
        ensures { HasNoneIn result }
    {
        NameSpaces {
            names: Places::new(alloc),
            tags: Places::new(alloc),
        }
    }

    /// Where a tag or another name stands.
    pub fn get(&self, tag: bool, name: &[u8]) -> Option<usize>
        ensures { result ≡ place_in self.now tag name.now }
    {
        if tag {
            self.tags.get(name)
        } else {
            self.names.get(name)
        }
    }

    /// Makes room for a name, which stands where it stood. For want of memory it changes no name's place either.
    pub fn make_room(&mut self, tag: bool, name: &[u8]) -> Result<(), NoMemory>
        ensures same { AreSameIn self.old self.new }
        ensures room { OnOk result (has_room_in self.new tag name.now ≡ true) }
    {
        if tag {
            self.tags.make_room(name)
        } else {
            self.names.make_room(name)
        }
    }

    /// Puts a name that has room at an index, or nowhere. It takes no memory.
    pub fn set(&mut self, tag: bool, name: &[u8], place: Option<usize>)
        requires { has_room_in self.old tag name.now ≡ true }
        ensures { IsMovedIn self.old self.new tag name.now place }
    {
        if tag {
            self.tags.set(name, place);
        } else {
            self.names.set(name, place);
        }
    }
}
