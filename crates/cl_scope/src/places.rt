//! Where names stand in a list.

ghost use Rattle.std.specs.Prelude.{◌≡◌, true, OnOk};
ghost use Rattle.cl_scope.specs.Places.{place_of, has_room, HasNone, AreSame, IsMoved};

use clv_place::NoMemory;
use indexmap::IndexMap;
use std::alloc::Global;

/// For each name the index at which it stands, or none. A name that has room is in the map, and may stand nowhere.
#[derive(Drop)]
pub struct Places {
    alloc: Global,
    by_name: IndexMap<Vec<u8>, Option<usize>>,
}

impl Places {
    /// No name stands anywhere. It takes no memory.
    pub fn new(alloc: Global) -> Self
        ensures { HasNone result }
    {
        Places {
            alloc,
            by_name: IndexMap::new(alloc),
        }
    }

    /// Where a name stands.
    pub fn get(&self, name: &[u8]) -> Option<usize>
        ensures { result ≡ place_of self.now name.now }
    {
        match self.by_name.get(name) {
            None => None,
            Some(place) => *place,
        }
    }

    /// Makes room for a name, which stands where it stood. For want of memory it changes no name's place either.
    pub fn make_room(&mut self, name: &[u8]) -> Result<(), NoMemory>
        ensures same { AreSame self.old self.new }
        ensures room { OnOk result (has_room self.new name.now ≡ true) }
    {
        if self.by_name.contains_key(name) {
            return Ok(());
        }
        let key = name.to_vec(self.alloc)?;
        self.by_name.insert(key, None)?;
        Ok(())
    }

    /// Puts a name that has room at an index, or nowhere. It takes no memory.
    pub fn set(&mut self, name: &[u8], place: Option<usize>)
        requires { has_room self.old name.now ≡ true }
        ensures { IsMoved self.old self.new name.now place }
    {
        if let Some(at) = self.by_name.get_mut(name) {
            *at = place;
        }
    }
}
