//! Where an access chain leads.

ghost use Rattle.std.specs.Prelude.{ℕ, ◌≡◌, ◌+◌, ◌*◌, ◌<◌, ◌≤◌, ◌^◌, length, option_map, Some, slice_get};
ghost use Rattle.spv_module.specs.Instructions.{definition_in, ids};
ghost use Rattle.spv_meaning.specs.Invocation.{enter_by, element_at, reached, width_by, Inside};
ghost use Rattle.run_machine.specs.Views.{reached_by, IsBelow};

use spv_module::enumerant::decoration;
use spv_module::lookup::{decoration_number, definition, member_decoration_number};
use spv_module::module::{Inst, Operand};
use spv_module::reading::Said;

/// Where indices have come to in a buffer: a type and an offset in bytes; past an array's end; or where
/// there is no such way.
#[derive(Clone, Copy)]
pub enum Reached {
    Inside { ty: u32, offset: u128 },
    Beyond,
    NoWay,
}

// The id at an index among the ids of operands.
fn id_at(operands: &[Operand], at: u32) -> Option<u32>
    ensures { result ≡ slice_get (ids operands.now) at }
{
    let mut left = at;
    let mut rest = operands;
    while let [operand, others @ ..] = rest {
        if let Operand::Id(id) = operand {
            if left == 0 {
                return Some(*id);
            }
            left -= 1;
        }
        rest = others;
    }
    None
}

// The element at an index of a runtime array, which goes on to the end of the buffer.
#[tactic(auto, using(crate::proofs::Chains::elements))]
fn element(size: usize, ty: u32, offset: u128, index: u32, stride: u32) -> Reached
    ensures way { reached_by result ≡ element_at size ty offset index (Some stride) }
    ensures near { IsBelow result (2 ^ 64) }
{
    if stride == 0 {
        return Reached::Beyond;
    }
    if (index as u128) < (size as u128).saturating_sub(offset) / stride as u128 {
        Reached::Inside {
            ty,
            offset: offset + stride as u128 * index as u128,
        }
    } else {
        Reached::Beyond
    }
}

// Into a type by an index.
#[tactic(auto, using(crate::proofs::Chains::entering))]
fn enter(body: &[Inst], size: usize, offset: u128, index: u32, ty: u32) -> Reached
    requires { offset < 2 ^ 100 }
    ensures way { reached_by result ≡ enter_by body.now size offset index (definition_in body.now ty) }
    ensures near { (limit : ℕ) → offset < limit → 2 ^ 64 ≤ limit → IsBelow result (limit + 2 ^ 32) }
{
    match definition(body, ty) {
        Some(Said::StructType { id, members }) => {
            match (
                id_at(members, index),
                member_decoration_number(body, id, index, decoration::OFFSET),
            ) {
                (Some(member), Some(at)) => Reached::Inside {
                    ty: member,
                    offset: offset + at as u128,
                },
                _ => Reached::NoWay,
            }
        }
        Some(Said::RuntimeArray { id, element: inner }) => {
            match decoration_number(body, id, decoration::ARRAY_STRIDE) {
                Some(stride) => element(size, inner, offset, index, stride),
                None => Reached::NoWay,
            }
        }
        _ => Reached::NoWay,
    }
}

/// Where indices come to from the beginning of a buffer's block.
#[tactic(auto, using(crate::proofs::Chains::reaching))]
pub fn reach(body: &[Inst], size: usize, block: u32, indices: &[u32]) -> Reached
    ensures way { reached_by result ≡ reached body.now size (Inside block 0) indices.now }
    ensures near { IsBelow result (2 ^ 100) }
{
    let mut at = Reached::Inside {
        ty: block,
        offset: 0,
    };
    let count = indices.len();
    let mut rest = indices;
    while let [index, others @ ..] = rest {
        let Reached::Inside { ty, offset } = at else {
            return at;
        };
        at = enter(body, size, offset, *index, ty);
        rest = others;
    }
    at
}

/// The width of the numbers of a type.
pub fn int_width(body: &[Inst], ty: u32) -> Option<u32>
    ensures { result ≡ width_by (definition_in body.now ty) }
{
    match definition(body, ty)? {
        Said::IntType { width, .. } => Some(width),
        _ => None,
    }
}
