//! When two types are equal.

ghost use Rattle.std.specs.Prelude.{◌≡◌, ◌++◌, nat_eq};
ghost use Rattle.std.proofs.Common.{rules};
ghost use Rattle.std.specs.Cmp.Lexicographic.{pointwise};
ghost use Rattle.std.specs.Cmp.Rules.{comparing, hashing};
ghost use Rattle.std.specs.Hash as fed;
ghost use Rattle.std.specs.Ordering.{on, eq_of_both};
ghost use Rattle.cl_types.specs.Equal.{type_partial, type_equivalence, fed_alike};
ghost use Rattle.cl_types.specs.Same.{bit, space_number, key, name_of, members_of, member_eq, type_eq, member_input, type_input};

use crate::space::Space;
use crate::types::{ClType, Member};
use std::hash::{Hash, Hasher};

fn bit(b: bool) -> u32
    ensures { result ≡ bit b }
{
    if b { 1 } else { 0 }
}

fn space_number(space: Space) -> u32
    ensures { result ≡ space_number space }
{
    match space {
        Space::Global => 0,
        Space::Constant => 1,
        Space::Local => 2,
        Space::Private => 3,
    }
}

impl ClType {
    // What tells types apart, but for a struct's name and members: which kind it is, and its numbers.
    fn key(&self) -> [u32; 5]
        ensures { result ≡ key self.now }
    {
        match self {
            ClType::Void => [0, 0, 0, 0, 0],
            ClType::Bool => [1, 0, 0, 0, 0],
            ClType::Int { bits, signed } => [2, *bits as u32, bit(*signed), 0, 0],
            ClType::Vector { elem, n } => [3, elem.0, *n as u32, 0, 0],
            ClType::Array { elem, len } => [4, elem.0, *len, 0, 0],
            ClType::Struct { .. } => [5, 0, 0, 0, 0],
            ClType::Pointer {
                space,
                to,
                readonly,
                restricted,
            } => [
                6,
                space_number(*space),
                to.0,
                bit(*readonly),
                bit(*restricted),
            ],
        }
    }

    // A struct's name, and nothing for any other type.
    fn name(&self) -> &[u8]
        ensures { result.now ≡ name_of self.now }
    {
        match self {
            ClType::Struct { name, .. } => name.as_slice(),
            _ => &[],
        }
    }

    // A struct's members, and none for any other type.
    fn members(&self) -> &[Member]
        ensures { result.now ≡ members_of self.now }
    {
        match self {
            ClType::Struct { members, .. } => members.as_slice(),
            _ => &[],
        }
    }
}

impl PartialEq for Member {
    ghost eq = { member_eq };

    ghost laws = { Prim.search (comparing, rules) };

    fn eq(&self, other: &Member) -> bool {
        self.name.as_slice() == other.name.as_slice() && self.ty.0 == other.ty.0
    }
}

impl Eq for Member {
    ghost laws = { Prim.search (comparing, rules) };
}

impl Hash for Member {
    ghost hash_input = { member_input };

    ghost respects_eq = { Prim.search (hashing, rules) };

    fn hash<H: Hasher>(&self, state: &mut H) {
        self.name.as_slice().hash(state);
        self.ty.0.hash(state);
    }
}

impl PartialEq for ClType {
    ghost eq = { type_eq };

    ghost laws = { type_partial };

    fn eq(&self, other: &ClType) -> bool {
        self.key() == other.key()
            && self.name() == other.name()
            && self.members() == other.members()
    }
}

impl Eq for ClType {
    ghost laws = { type_equivalence };
}

impl Hash for ClType {
    ghost hash_input = { type_input };

    ghost respects_eq = { fed_alike };

    fn hash<H: Hasher>(&self, state: &mut H) {
        self.key().hash(state);
        self.name().hash(state);
        self.members().hash(state);
    }
}
