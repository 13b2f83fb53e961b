//! Members of a struct, while they are read.

ghost use Rattle.std.specs.Prelude.{◌≡◌, ◌++◌, ◌∷◌, [], ◌↔◌, false, IsTrue, IfOk, OnOk, OnErr};
ghost use Rattle.cl_words.specs.Words.{has_member, is_empty};

use cl_types::{Member, TypeId};
use clv_place::{List, NoMemory, Text};
use indexmap::IndexMap;
use std::alloc::Global;
use std::marker::Model;

/// Members in text order, whose names are found at once. A contract sees their list.
#[derive(Drop)]
pub(crate) struct Members {
    alloc: Global,
    types: IndexMap<Vec<u8>, TypeId>,
}

impl Model for Members {
    ghost use Rattle.std.specs.Prelude.{List as ListOf};
    ghost use Rattle.cl_types.specs.declared.types.Member.{Member as OneMember};
    ghost use Rattle.cl_type_expr.specs.Members.{members_of_entries};

    ghost Value = { ListOf OneMember };

    ghost view = { λ m. members_of_entries m.types.entries };
}

impl Members {
    /// No members. It takes no memory.
    pub(crate) fn new(alloc: Global) -> Self
        ensures { result ≡ [] }
    {
        Members {
            alloc,
            types: IndexMap::new(alloc),
        }
    }

    /// Whether there is none.
    pub(crate) fn is_empty(&self) -> bool
        ensures { result ≡ is_empty self.now }
    {
        self.types.is_empty()
    }

    /// Whether a member has this name.
    pub(crate) fn contains(&self, name: &[u8]) -> bool
        ensures { result ≡ has_member name.now self.now }
    {
        self.types.contains_key(name)
    }

    /// Adds a member of a name that none has yet. For want of memory it changes nothing.
    pub(crate) fn push(&mut self, name: &[u8], ty: TypeId) -> Result<(), NoMemory>
        requires { has_member name.now self.old ≡ false }
        ensures ok { OnOk result (self.new ≡ self.old ++ record { name = name.now; ty = ty } ∷ []) }
        ensures err { OnErr result (self.new ≡ self.old) }
    {
        let key = name.to_vec(self.alloc)?;
        self.types.insert(key, ty)?;
        Ok(())
    }

    /// The members as a list.
    pub(crate) fn list(&self, alloc: Global) -> Result<List<Member>, NoMemory>
        ensures { IfOk result (λ ms. ms ≡ self.now) }
    {
        let mut list = List::new(alloc);
        for i in 0..self.types.len() {
            match self.types.get_index(i) {
                Some((name, ty)) => list.push(Member {
                    name: Text::from_bytes(alloc, name)?,
                    ty: *ty,
                })?,
                None => unreachable!(),
            }
        }
        Ok(list)
    }
}
