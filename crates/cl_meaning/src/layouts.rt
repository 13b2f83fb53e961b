//! The types of a unit, as what stands in memory has them. Each answer is that of the definitions also where the table
//! has no such type.

ghost use Rattle.std.specs.Prelude.{◌≡◌, IfOk, length, nat_lt, slice_get};
ghost use Rattle.cl_common.specs.Operators.{gentype_at};
ghost use Rattle.cl_common.specs.Types.{count_at, size_at, slots_at};
ghost use Rattle.cl_tree.specs.Shapes.{members_of, shape_of};
ghost use Rattle.cl_types.specs.Layout.{offset_of, scalars_of};
ghost use Rattle.cl_types.specs.Table.{IsTable, is_sized, member_count, tree_of};

use crate::wide::{WideShape, WideType};
use cl_constants::shape;
use cl_types::{ClType, Member, Scalar as Slot, TypeId, TypeTable};
use clv_place::{List, NoMemory};
use std::alloc::Global;
use std::marker::Model;

/// A table of types, and the scalars of each type. A contract sees it as the list of its types.
#[derive(Drop)]
pub struct Layouts<'a> {
    types: &'a TypeTable,
    slots: Vec<List<Slot>>,
}

impl<'a> Model for Layouts<'a> {
    ghost use Rattle.std.specs.Prelude.{List, ◌≡◌};
    ghost use Rattle.cl_types.specs.declared.types.ClType.{ClType as AType};
    ghost use Rattle.cl_meaning.specs.Slots.{AreSlots};

    ghost Value = { List AType };

    ghost view = { λ l. l.types.now };

    ghost invariant = { λ l. AreSlots l.types.now l.slots.items };
}

fn is_known(types: &TypeTable, t: TypeId) -> bool
    ensures { result ≡ nat_lt t.0 (length types.now) }
{
    (t.0 as usize) < types.len()
}

// Whether a type has a size: it is there and isn't void.
fn is_sized(types: &TypeTable, t: TypeId) -> bool
    ensures { result ≡ is_sized (slice_get types.now t.0) }
{
    if !is_known(types, t) {
        return false;
    }
    match types.get(t) {
        ClType::Void => false,
        _ => true,
    }
}

#[tactic(auto, using(crate::proofs::Trees::unsized_types))]
fn slots_of(alloc: Global, types: &TypeTable, t: TypeId) -> Result<List<Slot>, NoMemory>
    ensures { IfOk result (λ slots. slots ≡ scalars_of (tree_of types.now t.0)) }
{
    if is_sized(types, t) {
        types.scalars(t)
    } else {
        Ok(List::new(alloc))
    }
}

fn member_count(types: &TypeTable, t: TypeId) -> usize
    ensures { result ≡ member_count (slice_get types.now t.0) }
{
    if !is_known(types, t) {
        return 0;
    }
    match types.get(t) {
        ClType::Struct { members, .. } => members.len(),
        _ => 0,
    }
}

impl<'a> Layouts<'a> {
    /// The layouts of a table's types.
    #[tactic(auto, using(crate::proofs::Trees::all_slots))]
    pub fn new(alloc: Global, types: &'a TypeTable) -> Result<Layouts<'a>, NoMemory>
        ensures { IfOk result (λ l. l ≡ types.now) }
    {
        types.is_table();
        let mut slots = Vec::new(alloc);
        for t in 0..types.len() {
            slots.push(slots_of(alloc, types, TypeId(t as u32))?)?;
        }
        Ok(Layouts { types, slots })
    }

    /// What holds of a table of types holds of these. It does nothing.
    pub fn is_table(&self)
        ensures { IsTable self.now }
    {
        self.types.is_table();
    }

    /// How many bytes a type has.
    #[tactic(auto, using(crate::proofs::Trees::unsized_types))]
    pub fn size(&self, t: TypeId) -> u32
        ensures { result ≡ size_at self.now t }
    {
        if is_sized(self.types, t) {
            self.types.size(t)
        } else {
            0
        }
    }

    /// The scalars of a type.
    #[tactic(auto, using(crate::proofs::Trees::unsized_types))]
    pub fn slots(&self, t: TypeId) -> &[Slot]
        ensures { result.now ≡ slots_at self.now t }
    {
        match self.slots.get(t.0 as usize) {
            Some(slots) => slots.as_slice(),
            None => &[],
        }
    }

    /// How many scalars a type has.
    pub fn count(&self, t: TypeId) -> usize
        ensures { result ≡ count_at self.now t }
    {
        self.slots(t).len()
    }

    /// What a type is.
    pub fn shape(&self, t: TypeId) -> WideShape
        ensures { result ≡ shape_of self.now t }
    {
        WideShape::new(shape(self.types, t))
    }

    /// The integer type that a type is; what is none counts as `uchar`.
    pub fn gentype(&self, t: TypeId) -> WideType
        ensures { result ≡ gentype_at self.now t }
    {
        self.shape(t).gentype()
    }

    /// The members of a struct; none of any other type.
    pub fn members(&self, t: TypeId) -> &[Member]
        ensures { result.now ≡ members_of self.now t }
    {
        if !is_known(self.types, t) {
            return &[];
        }
        match self.types.get(t) {
            ClType::Struct { members, .. } => members.as_slice(),
            _ => &[],
        }
    }

    /// How many bytes behind a struct's start a member lies.
    #[tactic(auto, using(crate::proofs::Trees::unsized_types))]
    pub fn offset(&self, t: TypeId, member: u32) -> u32
        ensures { result ≡ offset_of (tree_of self.now t.0) member }
    {
        if (member as usize) < member_count(self.types, t) {
            self.types.offset(t, member)
        } else {
            0
        }
    }
}
