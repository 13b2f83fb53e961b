//! Where the scalars of a type lie in a buffer.

ghost use Rattle.std.specs.Prelude.{◌≡◌, ◌≤◌, ◌+◌, ◌*◌, ◌^◌, ◌++◌, IfOk, OnOk, option_map, option_copied};
ghost use Rattle.spv_module.specs.Instructions.{ids};
ghost use Rattle.vk_bind.specs.Answers.{scalars_of};
ghost use Rattle.vk_bind.specs.Elements.{width_in, vector_in, members_in, element_in, offset_in, scalars_from, components_laid, members_laid, laid_within, scalars_in};

use clv_place::{List, NoMemory};
use spv_module::enumerant::decoration;
use spv_module::lookup::{definition, member_decoration_number};
use spv_module::reading::Said;
use spv_module::{Inst, Operand};
use std::alloc::Global;

/// A scalar of an element: where it begins, from the element's first byte on, and its bits.
#[derive(Clone, Copy, PartialEq, Eq, Debug)]
pub struct Scalar {
    pub offset: u64,
    pub bits: u32,
}

/// How deep types nest at the most (SPIR-V 1.3, 2.16.2).
const DEPTH: u32 = 18;

// The bits of an integer type. None for any other type.
fn width(body: &[Inst], ty: u32) -> Option<u32>
    ensures { result ≡ width_in body.now ty }
{
    match definition(body, ty) {
        Some(Said::IntType { width, .. }) => Some(width),
        _ => None,
    }
}

// The component type of a vector type and its number of components. None for any other type.
fn vector(body: &[Inst], ty: u32) -> Option<(u32, u32)>
    ensures { result ≡ vector_in body.now ty }
{
    match definition(body, ty) {
        Some(
            Said::VectorType {
                component,
                count,
                ..
            },
        ) => Some((component, count)),
        _ => None,
    }
}

// The member types of a struct type. None for any other type.
fn members(body: &[Inst], ty: u32) -> Option<&[Operand]>
    ensures { option_map ids (option_copied result) ≡ members_in body.now ty }
{
    match definition(body, ty) {
        Some(Said::StructType { members, .. }) => Some(members),
        _ => None,
    }
}

/// The type of the elements of a runtime array. None for any other type.
pub fn element(body: &[Inst], ty: u32) -> Option<u32>
    ensures { result ≡ element_in body.now ty }
{
    match definition(body, ty) {
        Some(Said::RuntimeArray { element, .. }) => Some(element),
        _ => None,
    }
}

// Where a member of a struct begins. Its number is a word.
fn offset(body: &[Inst], ty: u32, member: u64) -> Option<u32>
    ensures { result ≡ offset_in body.now ty member }
{
    if member >= 1 << 32 {
        return None;
    }
    member_decoration_number(body, ty, member as u32, decoration::OFFSET)
}

// Adds so many scalars, one behind another.
fn add_scalars(width: u32, count: u32, at: u64, found: &mut List<Scalar>) -> Result<(), NoMemory>
    requires { at ≤ 2 ^ 62 }
    ensures { OnOk result (scalars_of found.new ≡ scalars_of found.old ++ scalars_from width count at) }
{
    let size = u64::from(width / 8);
    let mut place = at;
    let mut left = count;
    while left > 0 {
        found.push(Scalar {
            offset: place,
            bits: width,
        })?;
        place += size;
        left -= 1;
    }
    Ok(())
}

// Adds the components of a vector.
fn add_components(
    body: &[Inst],
    component: u32,
    count: u32,
    at: u64,
    found: &mut List<Scalar>,
) -> Result<(), NoMemory>
    requires { at ≤ 2 ^ 62 }
    ensures { OnOk result (scalars_of found.new ≡ scalars_of found.old ++ components_laid (width_in body.now component) count at) }
{
    match width(body, component) {
        Some(width) => add_scalars(width, count, at, found),
        None => Ok(()),
    }
}

// Adds the scalars of a struct's members, which nest one less deep.
#[cycle(types)]
fn add_members(
    body: &[Inst],
    ty: u32,
    members: &[Operand],
    at: u64,
    depth: u32,
    found: &mut List<Scalar>,
) -> Result<(), NoMemory>
    requires { at + (depth + 1) * 4294967296 ≤ 2 ^ 62 }
    ensures { OnOk result (scalars_of found.new ≡ scalars_of found.old ++ members_laid body.now (laid_within depth body.now) ty at 0 (ids members.now)) }
{
    let mut member = 0_u64;
    let mut rest = members;
    while let [operand, others @ ..] = rest {
        if let Operand::Id(id) = operand {
            if let Some(offset) = offset(body, ty, member) {
                add_type(body, *id, at + u64::from(offset), depth, found)?;
            }
            member += 1;
        }
        rest = others;
    }
    Ok(())
}

// Adds the scalars of a type that nests so deep at the most.
#[cycle(types)]
fn add_type(
    body: &[Inst],
    ty: u32,
    at: u64,
    depth: u32,
    found: &mut List<Scalar>,
) -> Result<(), NoMemory>
    requires { at + depth * 4294967296 ≤ 2 ^ 62 }
    ensures { OnOk result (scalars_of found.new ≡ scalars_of found.old ++ laid_within depth body.now ty at) }
{
    if depth == 0 {
        return Ok(());
    }
    if let Some(width) = width(body, ty) {
        return found.push(Scalar {
            offset: at,
            bits: width,
        });
    }
    if let Some((component, count)) = vector(body, ty) {
        return add_components(body, component, count, at, found);
    }
    match members(body, ty) {
        Some(members) => add_members(body, ty, members, at, depth - 1, found),
        None => Ok(()),
    }
}

/// The scalars of a type, in the order of its parts.
pub fn scalars(alloc: Global, body: &[Inst], ty: u32) -> Result<List<Scalar>, NoMemory>
    ensures { IfOk result (λ found. scalars_of found ≡ scalars_in body.now ty) }
{
    let mut found = List::new(alloc);
    add_type(body, ty, 0, DEPTH, &mut found)?;
    Ok(found)
}
