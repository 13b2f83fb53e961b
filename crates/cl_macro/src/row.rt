//! Items in order that can be taken off again.

ghost use Rattle.std.specs.Prelude.{◌≡◌, ◌≢◌, MatchBool, List, [], ◌∷◌, ◌++◌, length, OnOk, OnErr};
ghost use Rattle.cl_macro.specs.Ends.{IsLastOf};

use clv_place::{List, NoMemory};
use std::alloc::Global;
use std::marker::Model;

/// Items in order, of which the last can be taken off. A contract sees the list of them.
#[derive(Drop)]
pub struct Row<T> {
    items: Vec<T>,
}

impl<T> Model for Row<T> {
    ghost use Rattle.std.specs.Prelude.{List};

    ghost Value = { List T };

    ghost view = { λ r. r.items.items };
}

impl<T: Drop> Row<T> {
    /// The empty row. It takes no memory, and keeps the allocator for what is added.
    pub fn new(alloc: Global) -> Self
        ensures { result ≡ [] }
    {
        Row {
            items: Vec::new(alloc),
        }
    }

    /// The number of items.
    pub fn len(&self) -> usize
        ensures { result ≡ length self.now }
    {
        self.items.len()
    }

    /// Adds an item at the end. For want of memory it changes nothing, and drops the item.
    pub fn push(&mut self, item: T) -> Result<(), NoMemory>
        ensures ok { OnOk result (self.new ≡ self.old ++ item ∷ []) }
        ensures err { OnErr result (self.new ≡ self.old) }
    {
        match self.items.push(item) {
            Ok(()) => Ok(()),
            Err(_) => Err(NoMemory),
        }
    }

    /// Takes the last item off, where there is one.
    pub fn pop(&mut self) -> Option<T>
        ensures { IsLastOf result self.old self.new }
    {
        self.items.pop()
    }

    /// The items as a slice.
    pub fn as_slice(&self) -> &[T]
        ensures { result.now ≡ self.now }
    {
        &self.items
    }

    /// The same items as a list. It takes no memory.
    pub fn into_list(self) -> List<T>
        ensures { result ≡ self }
    {
        List::from_vec(self.items)
    }
}
