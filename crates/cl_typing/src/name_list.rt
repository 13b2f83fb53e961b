//! Names, each of which is found at once.

ghost use Rattle.std.specs.Prelude.{◌≡◌, [], OnOk, OnErr};
ghost use Rattle.cl_typing.specs.Positions.{position_of, and_name};

use clv_place::NoMemory;
use indexmap::IndexMap;
use std::alloc::Global;
use std::marker::Model;

/// Names that differ, each with the index of where it was added. A contract sees their list.
#[derive(Drop)]
pub struct NameList {
    alloc: Global,
    names: IndexMap<Vec<u8>, ()>,
}

impl Model for NameList {
    ghost use Rattle.std.specs.Prelude.{ℕ, List};
    ghost use Rattle.cl_typing.specs.Positions.{names_in};

    ghost Value = { List (List ℕ) };

    ghost view = { λ n. names_in n.names.entries };
}

impl NameList {
    /// No names. It takes no memory.
    pub fn new(alloc: Global) -> Self
        ensures { result ≡ [] }
    {
        NameList {
            alloc,
            names: IndexMap::new(alloc),
        }
    }

    /// Where a name stands.
    pub fn position(&self, name: &[u8]) -> Option<usize>
        ensures { result ≡ position_of name.now self.now }
    {
        self.names.get_index_of(name)
    }

    /// Adds a name behind the others, unless it stands there. For want of memory it changes nothing.
    pub fn add(&mut self, name: &[u8]) -> Result<(), NoMemory>
        ensures ok { OnOk result (self.new ≡ and_name name.now self.old) }
        ensures err { OnErr result (self.new ≡ self.old) }
    {
        if self.names.contains_key(name) {
            return Ok(());
        }
        let key = name.to_vec(self.alloc)?;
        self.names.insert(key, ())?;
        Ok(())
    }
}
