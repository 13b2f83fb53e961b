//! Functions that were declared.

ghost use Rattle.std.specs.Prelude.{◌≡◌, [], ◌∷◌, ◌++◌, option_copied, IfOk, OnOk, OnErr};
ghost use Rattle.cl_scope.specs.Names.{function_in};

use crate::places::Places;
use crate::scope::Signature;
use clv_place::NoMemory;
use std::alloc::Global;
use std::marker::Model;

/// Functions, the first one of each name found at once. A contract sees the list of them, in their order.
#[derive(Drop)]
pub struct Functions {
    list: Vec<Signature>,
    places: Places,
}

impl Model for Functions {
    ghost use Rattle.std.specs.Prelude.{List};
    ghost use Rattle.cl_scope.specs.declared.scope.Signature.{Signature as ASignature};
    ghost use Rattle.cl_scope.specs.Places.{AreFirst};

    ghost Value = { List ASignature };

    ghost view = { λ f. f.list.items };

    ghost invariant = { λ f. AreFirst f.list.items f.places };
}

impl Functions {
    /// No functions. It takes no memory.
    pub fn new(alloc: Global) -> Self
        ensures { result ≡ [] }
    {
        Functions {
            list: Vec::new(alloc),
            places: Places::new(alloc),
        }
    }

    /// Copies of functions.
    pub fn of(alloc: Global, functions: &[Signature]) -> Result<Self, NoMemory>
        ensures { IfOk result (λ f. f ≡ functions.now) }
    {
        let mut all = Functions::new(alloc);
        for function in functions {
            all.push(function.copy(alloc)?)?;
        }
        Ok(all)
    }

    /// The first function of a name.
    pub fn find(&self, name: &[u8]) -> Option<&Signature>
        ensures { option_copied result ≡ function_in name.now self.now }
    {
        match self.places.get(name) {
            None => None,
            Some(at) => self.list.get(at),
        }
    }

    /// Adds a function at the end. For want of memory it changes nothing, and drops the function.
    pub fn push(&mut self, function: Signature) -> Result<(), NoMemory>
        ensures ok { OnOk result (self.new ≡ self.old ++ function ∷ []) }
        ensures err { OnErr result (self.new ≡ self.old) }
    {
        self.places.make_room(function.name.as_slice())?;
        let at = self.list.len();
        let first = self.places.get(function.name.as_slice()).unwrap_or(at);
        self.list.push(function)?;
        self.places.set(self.list[at].name.as_slice(), Some(first));
        Ok(())
    }
}
