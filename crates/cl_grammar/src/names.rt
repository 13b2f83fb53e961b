//! The names that typedefs declared so far.

ghost use Rattle.std.specs.Prelude.{◌≡◌, [], ◌∷◌, ◌++◌, None, OnOk, OnErr};
ghost use Rattle.cl_grammar.specs.Lexemes.{vector_of};

use clv_place::{NoMemory, Text};
use indexmap::IndexMap;
use std::alloc::Global;
use std::marker::Model;

/// A name that a typedef declared, and whether its type is a vector.
#[derive(Drop)]
pub struct TypeName {
    pub name: Text,
    pub vector: bool,
}

/// The names that typedefs declared, by which a name is found at once. A contract sees them as a list, in the order
/// of their declarations.
#[derive(Drop)]
pub struct TypeNames {
    alloc: Global,
    vectors: IndexMap<Vec<u8>, bool>,
}

impl Model for TypeNames {
    ghost use Rattle.std.specs.Prelude.{List};
    ghost use Rattle.cl_grammar.specs.declared.names.TypeName.{TypeName as Named};
    ghost use Rattle.cl_grammar.specs.Names.{names_of};

    ghost Value = { List Named };

    ghost view = { λ n. names_of n.vectors.entries };
}

impl TypeNames {
    /// No names. It takes no memory.
    pub fn new(alloc: Global) -> Self
        ensures { result ≡ [] }
    {
        TypeNames {
            alloc,
            vectors: IndexMap::new(alloc),
        }
    }

    /// Whether the type that a name's typedef declared is a vector, and none where no typedef declared the name.
    pub fn get(&self, name: &[u8]) -> Option<bool>
        ensures { result ≡ vector_of self.now name.now }
    {
        self.vectors.get(name).copied()
    }

    /// Adds a name that no typedef declared before. For want of memory it changes nothing.
    pub fn add(&mut self, name: &[u8], vector: bool) -> Result<(), NoMemory>
        requires { vector_of self.old name.now ≡ None }
        ensures ok { OnOk result (self.new ≡ self.old ++ record { name = name.now; vector = vector } ∷ []) }
        ensures err { OnErr result (self.new ≡ self.old) }
    {
        let key = name.to_vec(self.alloc)?;
        self.vectors.insert(key, vector)?;
        Ok(())
    }
}
