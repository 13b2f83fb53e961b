//! What names are defined as.

ghost use Rattle.std.specs.Prelude.{◌≡◌, ◌++◌, ◌∷◌, List, [], IfOk, option_copied, slice_get};
ghost use Rattle.cl_macro.specs.Tables.{latest, look_up, means_of};

use crate::macros::{Entry, Macro};
use clv_place::{List, NoMemory};
use std::alloc::Global;
use std::collections::HashMap;
use std::marker::Model;

/// What the directives so far say of names. A contract sees the list of their entries, in their order.
#[derive(Drop)]
pub struct Table {
    entries: List<Entry>,
    latest: HashMap<Vec<u8>, usize>,
}

impl Model for Table {
    ghost use Rattle.std.specs.Prelude.{List};
    ghost use Rattle.cl_macro.specs.declared.macros.Entry.{Entry};
    ghost use Rattle.cl_macro.specs.Indexed.{IsIndexed};

    ghost Value = { List Entry };

    ghost view = { λ t. t.entries };

    ghost invariant = { λ t. IsIndexed t.entries t.latest };
}

impl Table {
    /// The table in which no name is defined. It takes no memory, and keeps the allocator for what is added.
    #[tactic(auto, using(crate::proofs::Indexing::indexings))]
    pub fn new(alloc: Global) -> Self
        ensures { result ≡ [] }
    {
        Table {
            entries: List::new(alloc),
            latest: HashMap::new(alloc),
        }
    }

    /// The index of the last entry of a name, from 0.
    pub fn latest(&self, name: &[u8]) -> Option<usize>
        ensures { result ≡ latest name.now self.now }
    {
        self.latest.get(name).copied()
    }

    /// The macro that an entry names, by the entry's index from 0.
    pub fn meaning(&self, at: usize) -> Option<&Macro>
        ensures { option_copied result ≡ means_of (slice_get self.now at) }
    {
        match self.entries.get(at) {
            None => None,
            Some(entry) => entry.means.as_ref(),
        }
    }

    /// The macro that a name names.
    pub fn look_up(&self, name: &[u8]) -> Option<&Macro>
        ensures { option_copied result ≡ look_up name.now self.now }
    {
        match self.latest(name) {
            None => None,
            Some(at) => self.meaning(at),
        }
    }

    /// The table with one entry more.
    pub fn with(self, alloc: Global, entry: Entry) -> Result<Self, NoMemory>
        ensures { IfOk result (λ t. t ≡ self ++ entry ∷ []) }
    {
        let Table { entries, latest } = self;
        let mut entries = entries;
        let mut latest = latest;
        let name = entry.name.as_slice().to_vec(alloc)?;
        latest.insert(name, entries.len())?;
        entries.push(entry)?;
        Ok(Table { entries, latest })
    }
}
