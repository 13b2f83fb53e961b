//! Values read out of bytes.

ghost use Rattle.std.specs.Prelude.{◌≡◌, ◌≤◌, ◌+◌, ◌*◌, ◌/◌, IsTrue, IfOk, length, map, Some, true, option_map, option_copied};
ghost use Rattle.clv_num.specs.Numbers.{is_width};
ghost use Rattle.spv_module.specs.Instructions.{ids};
ghost use Rattle.spv_value.specs.Shapes.{vector_in, members_in};
ghost use Rattle.spv_value.specs.Views.{width_in, fits_within, members_fit, elements_stand, members_stand, stands, ViewOf, HasLayout};

use crate::scalar::{scalar, width};
use crate::value::Value;
use clv_place::NoMemory;
use spv_module::enumerant::decoration;
use spv_module::lookup::{definition, member_decoration_number};
use spv_module::reading::Said;
use spv_module::{Inst, Module, Operand};
use std::alloc::Global;

// The component type of a vector type and its number of elements. None for any other type.
fn vector(body: &[Inst], ty: u32) -> Option<(u32, u32)>
    ensures { result ≡ vector_in body.now ty }
{
    match definition(body, ty) {
        Some(
            Said::VectorType {
                component,
                count,
                ..
            },
        ) => Some((component, count)),
        _ => None,
    }
}

// The member types of a struct type. None for any other type.
fn members(body: &[Inst], ty: u32) -> Option<&[Operand]>
    ensures { option_map ids (option_copied result) ≡ members_in body.now ty }
{
    match definition(body, ty) {
        Some(Said::StructType { members, .. }) => Some(members),
        _ => None,
    }
}

// So many scalars of a type, one behind another.
#[tactic(auto, using(crate::proofs::Steps::view_steps))]
fn elements(
    alloc: Global,
    bytes: &[u8],
    body: &[Inst],
    element: u32,
    width: u8,
    count: u32,
    at: usize,
) -> Result<Vec<Value>, NoMemory>
    requires typed { width_in body.now element ≡ Some width }
    requires is_width { IsTrue (is_width width) }
    requires inside { at + count * (width / 8) ≤ length bytes.now }
    ensures { IfOk result (λ vs. elements_stand element (width / 8) count at (map (stands body.now bytes.now) vs.items) ≡ true) }
{
    let size = usize::from(width / 8);
    let mut values = Vec::new(alloc);
    let mut place = at;
    let mut left = count;
    while left > 0 {
        values.push(Value::Scalar(Some(scalar(bytes, place, width))))?;
        place += size;
        left -= 1;
    }
    Ok(values)
}

// The members of a struct at a place.
#[cycle(structs)]
#[tactic(auto, using(crate::proofs::Steps::view_steps))]
fn parts(
    alloc: Global,
    bytes: &[u8],
    body: &[Inst],
    ty: u32,
    members: &[Operand],
    at: usize,
    depth: u32,
) -> Result<Vec<Value>, NoMemory>
    requires { members_fit body.now (fits_within depth body.now) ty at (length bytes.now) 0 (ids members.now) ≡ true }
    ensures { IfOk result (λ vs. members_stand body.now ty at 0 (ids members.now) (map (stands body.now bytes.now) vs.items) ≡ true) }
{
    let mut values = Vec::new(alloc);
    let mut member = 0_u64;
    let mut rest = members;
    while let [operand, others @ ..] = rest {
        if let Operand::Id(id) = operand {
            match member_decoration_number(body, ty, member as u32, decoration::OFFSET) {
                Some(offset) => {
                    values.push(view_at(alloc, bytes, body, *id, at + offset as usize, depth)?)?;
                }
                None => unreachable!(),
            }
            member += 1;
        }
        rest = others;
    }
    Ok(values)
}

// The value of a type at a place.
#[cycle(structs)]
#[tactic(auto, using(crate::proofs::Steps::view_steps))]
fn view_at(
    alloc: Global,
    bytes: &[u8],
    body: &[Inst],
    ty: u32,
    at: usize,
    depth: u32,
) -> Result<Value, NoMemory>
    requires { fits_within depth body.now ty at (length bytes.now) ≡ true }
    ensures { IfOk result (ViewOf body.now bytes.now ty at) }
{
    if let Some(width) = width(body, ty) {
        return Ok(Value::Scalar(Some(scalar(bytes, at, width))));
    }
    if let Some((element, count)) = vector(body, ty) {
        return match width(body, element) {
            Some(width) => Ok(Value::Parts(elements(
                alloc, bytes, body, element, width, count, at,
            )?)),
            None => unreachable!(),
        };
    }
    match members(body, ty) {
        Some(members) => Ok(Value::Parts(parts(alloc, bytes, body, ty, members, at, depth - 1)?)),
        None => unreachable!(),
    }
}

/// The value of a type that some bytes have from the first on, each part where the module's Offsets
/// say it stands (SPIR-V 1.3, 3.20; Vulkan, 15.6.4). The type has a layout, and each of its scalars
/// stands inside the bytes. No bytes have runtime arrays, and a truth value has none.
pub fn view(alloc: Global, bytes: &[u8], module: &Module, ty: u32) -> Result<Value, NoMemory>
    requires { HasLayout «module».now.body ty 0 (length bytes.now) }
    ensures { IfOk result (ViewOf «module».now.body bytes.now ty 0) }
{
    view_at(alloc, bytes, module.body.as_slice(), ty, 0, 18)
}
