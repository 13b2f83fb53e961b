//! Values of cases, while the labels of a `switch` are read.

ghost use Rattle.std.specs.Prelude.{◌≡◌, ◌++◌, ◌∷◌, [], false, OnOk, OnErr};
ghost use Rattle.cl_typing.specs.Statements.{is_among};

use clv_place::NoMemory;
use indexmap::IndexMap;
use std::alloc::Global;
use std::marker::Model;

/// Numbers of which each is found at once. A contract sees their list.
#[derive(Drop)]
pub struct Values {
    numbers: IndexMap<u64, ()>,
}

impl Model for Values {
    ghost use Rattle.std.specs.Prelude.{ℕ, List};
    ghost use Rattle.cl_typing.specs.Values.{numbers_in};

    ghost Value = { List ℕ };

    ghost view = { λ v. numbers_in v.numbers.entries };
}

impl Values {
    /// No numbers. It takes no memory.
    pub fn new(alloc: Global) -> Self
        ensures { result ≡ [] }
    {
        Values {
            numbers: IndexMap::new(alloc),
        }
    }

    /// Whether a number is among them.
    pub fn contains(&self, n: u64) -> bool
        ensures { result ≡ is_among n self.now }
    {
        self.numbers.contains_key(&n)
    }

    /// Adds a number that isn't among them. For want of memory it changes nothing.
    pub fn push(&mut self, n: u64) -> Result<(), NoMemory>
        requires { is_among n self.old ≡ false }
        ensures ok { OnOk result (self.new ≡ self.old ++ n ∷ []) }
        ensures err { OnErr result (self.new ≡ self.old) }
    {
        self.numbers.insert(n, ())?;
        Ok(())
    }
}
