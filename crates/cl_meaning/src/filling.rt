//! Initialiser lists (C99, 6.7.8).

ghost use Rattle.std.specs.Prelude.{◌≡◌, IfOk, OnOk, replicate};
ghost use Rattle.cl_common.specs.Operators.{fill_elements, fill_inside, fill_members, fill_part, filled, given};
ghost use Rattle.cl_meaning.specs.Initialisers.{IsFilled, next_type, taken};
ghost use Rattle.cl_tree.specs.Shapes.{shape_of};

use crate::layouts::Layouts;
use cl_tree::Shape;
use cl_types::{Member, TypeId};
use clv_place::{List, NoMemory};
use std::alloc::Global;

/// The operands of a list that are left, each by its type and the patterns of its scalars, and what was filled.
#[derive(Drop)]
struct Filling<'a> {
    types: &'a [TypeId],
    values: &'a [List<u64>],
    filled: Vec<u64>,
}

impl<'a> Filling<'a> {
    // The next operand's type.
    #[tactic(auto, using(crate::proofs::Fillings::operands))]
    fn next_type(&self) -> Option<TypeId>
        ensures { result ≡ next_type (given self.now.types.now self.now.values.now) }
    {
        match self.types {
            [ty, ..] => {
                if self.values.is_empty() {
                    None
                } else {
                    Some(*ty)
                }
            }
            _ => None,
        }
    }

    // Fills with the next operand, where there is one.
    #[tactic(auto, using(crate::proofs::Fillings::operands))]
    fn take(&mut self) -> Result<(), NoMemory>
        ensures { OnOk result (IsFilled self.old.filled.items (taken (given self.old.types.now self.old.values.now)) self.new.filled.items (given self.new.types.now self.new.values.now)) }
    {
        let types = self.types;
        let values = self.values;
        if types.is_empty() {
            return Ok(());
        }
        if values.is_empty() {
            return Ok(());
        }
        self.filled.extend_from_slice(values[0].as_slice())?;
        self.types = &types[1..];
        self.values = &values[1..];
        Ok(())
    }

    // So many zeros; no operand is taken.
    fn zeros(&mut self, count: usize) -> Result<(), NoMemory>
        ensures { OnOk result (IsFilled self.old.filled.items (record { patterns = replicate count 0; left = given self.old.types.now self.old.values.now }) self.new.filled.items (given self.new.types.now self.new.values.now)) }
    {
        for _scalar in 0..count {
            self.filled.push(0)?;
        }
        Ok(())
    }

    // An operand of the part's own type fills it as a whole; else it is filled inside, where the text leaves out
    // braces. What no operand fills is 0. Types nest so deep.
    #[cycle(filling)]
    #[tactic(auto, using(crate::proofs::Fillings::fillings))]
    fn part(&mut self, deep: u32, types: &Layouts<'_>, t: TypeId) -> Result<(), NoMemory>
        ensures { OnOk result (IsFilled self.old.filled.items (fill_part deep types.now t (given self.old.types.now self.old.values.now)) self.new.filled.items (given self.new.types.now self.new.values.now)) }
    {
        match self.next_type() {
            None => self.zeros(types.count(t)),
            Some(ty) => {
                if deep == 0 || t.0 == ty.0 {
                    self.take()
                } else {
                    self.inside(deep - 1, types, t)
                }
            }
        }
    }

    // The elements or members of a part are filled one after another. Anything else is filled by one operand.
    #[cycle(filling)]
    #[tactic(auto, using(crate::proofs::Fillings::fillings))]
    fn inside(&mut self, deep: u32, types: &Layouts<'_>, t: TypeId) -> Result<(), NoMemory>
        ensures { OnOk result (IsFilled self.old.filled.items (fill_inside (fill_part deep types.now) types.now t (shape_of types.now t) (given self.old.types.now self.old.values.now)) self.new.filled.items (given self.new.types.now self.new.values.now)) }
    {
        match types.shape(t).shape() {
            Shape::Array { elem, len, .. } => self.elements(deep, types, elem, len),
            Shape::Struct => self.members(deep, types, types.members(t)),
            _ => self.take(),
        }
    }

    #[cycle(filling)]
    #[tactic(auto, using(crate::proofs::Fillings::fillings))]
    fn elements(
        &mut self,
        deep: u32,
        types: &Layouts<'_>,
        elem: TypeId,
        len: u32,
    ) -> Result<(), NoMemory>
        ensures { OnOk result (IsFilled self.old.filled.items (fill_elements (fill_part deep types.now elem) len (given self.old.types.now self.old.values.now)) self.new.filled.items (given self.new.types.now self.new.values.now)) }
    {
        for _element in 0..len {
            self.part(deep, types, elem)?;
        }
        Ok(())
    }

    #[cycle(filling)]
    #[tactic(auto, using(crate::proofs::Fillings::fillings))]
    fn members(
        &mut self,
        deep: u32,
        types: &Layouts<'_>,
        members: &[Member],
    ) -> Result<(), NoMemory>
        ensures { OnOk result (IsFilled self.old.filled.items (fill_members (fill_part deep types.now) members.now (given self.old.types.now self.old.values.now)) self.new.filled.items (given self.new.types.now self.new.values.now)) }
    {
        for member in members {
            self.part(deep, types, member.ty)?;
        }
        Ok(())
    }
}

/// The patterns of the value that an initialiser list of this type has.
pub fn filled(
    alloc: Global,
    types: &Layouts<'_>,
    ty: TypeId,
    operands: &[TypeId],
    values: &[List<u64>],
) -> Result<List<u64>, NoMemory>
    ensures { IfOk result (λ ns. ns ≡ filled types.now ty (given operands.now values.now)) }
{
    let mut filling = Filling {
        types: operands,
        values,
        filled: Vec::new(alloc),
    };
    filling.inside(16, types, ty)?;
    Ok(List::from_vec(filling.filled))
}
