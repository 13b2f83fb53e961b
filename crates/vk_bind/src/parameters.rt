//! What a kernel takes, by the rows and the variables of its module.

ghost use Rattle.std.specs.Prelude.{◌≡◌, IfOk, option_map, option_copied};
ghost use Rattle.spv_module.specs.Interface.{variables_in};
ghost use Rattle.spv_module.specs.Options.{for_each};
ghost use Rattle.vk_bind.specs.Answers.{parameter_from, parameters_from, elements_by};
ghost use Rattle.vk_bind.specs.Binding.{variable_among, array_of, pointer_to, parameter_of, kernel_among};

use crate::elements::{Scalar, element, scalars};
use clv_place::{List, NoMemory};
use spv_module::Inst;
use spv_module::enumerant::decoration;
use spv_module::lookup::{decoration_number, is_at, is_decorated, pointee};
use spv_module::reading::Said;
use spv_reflect::{ArgKindRow, ArgRow, KernelRow};
use std::alloc::Global;

/// A pointer into a buffer, to elements that stand so many bytes apart and have these scalars. It may be
/// `restrict`: nothing else reaches what it points to.
#[derive(Drop)]
pub struct Parameter {
    pub stride: u32,
    pub scalars: List<Scalar>,
    pub restricted: bool,
}

/// The row of the kernel of a name: the first of that name.
pub fn kernel_row<'a>(rows: &'a [KernelRow], name: &[u8]) -> Option<&'a KernelRow>
    ensures { option_copied result ≡ kernel_among name.now rows.now }
{
    let mut rest = rows;
    while let [row, others @ ..] = rest {
        if row.name.as_slice() == name {
            return Some(row);
        }
        rest = others;
    }
    None
}

/// What the arguments of a kernel take, by their rows. None where a row has no buffer variable.
#[tactic(auto, using(crate::proofs::Rows::reading))]
pub fn parameters(
    alloc: Global,
    body: &[Inst],
    rows: &[ArgRow],
) -> Result<Option<List<Parameter>>, NoMemory>
    ensures { IfOk result (λ found. option_map parameters_from found ≡ for_each (parameter_of body.now) rows.now) }
{
    let mut found = List::new(alloc);
    let mut rest = rows;
    while let [row, others @ ..] = rest {
        match taken_by(alloc, body, row)? {
            Some(parameter) => found.push(parameter)?,
            None => return Ok(None),
        }
        rest = others;
    }
    Ok(Some(found))
}

// What an argument takes: the elements of the variable that its row names.
fn taken_by(alloc: Global, body: &[Inst], row: &ArgRow) -> Result<Option<Parameter>, NoMemory>
    ensures { IfOk result (λ found. option_map parameter_from found ≡ parameter_of body.now row.now) }
{
    match row.kind {
        ArgKindRow::Buffer { set, binding } => match variable_at(body, set, binding) {
            Some(variable) => pointer_to(alloc, body, variable),
            None => Ok(None),
        },
        _ => Ok(None),
    }
}

// What a buffer variable takes. None where it has no array of elements.
fn pointer_to(alloc: Global, body: &[Inst], variable: u32) -> Result<Option<Parameter>, NoMemory>
    ensures { IfOk result (λ found. option_map parameter_from found ≡ pointer_to body.now variable) }
{
    match elements(body, variable) {
        Some((stride, element)) => Ok(Some(Parameter {
            stride,
            scalars: scalars(alloc, body, element)?,
            restricted: is_decorated(body, variable, decoration::RESTRICT),
        })),
        None => Ok(None),
    }
}

// The first variable of a descriptor set and a binding.
fn variable_at(body: &[Inst], set: u32, binding: u32) -> Option<u32>
    ensures { result ≡ variable_among body.now set binding (variables_in body.now) }
{
    let mut rest = body;
    while let [inst, others @ ..] = rest {
        if let Said::Variable { id, .. } = inst.says() {
            if is_at(body, id, set, binding) {
                return Some(id);
            }
        }
        rest = others;
    }
    None
}

// The bytes from one element of a buffer variable to the next (SPIR-V 1.3, 3.20, ArrayStride), and the
// type of its elements.
fn elements(body: &[Inst], variable: u32) -> Option<(u32, u32)>
    ensures { result ≡ elements_by body.now variable }
{
    let array = array(body, variable)?;
    let stride = decoration_number(body, array, decoration::ARRAY_STRIDE)?;
    let element = element(body, array)?;
    Some((stride, element))
}

// The array of a buffer variable.
fn array(body: &[Inst], variable: u32) -> Option<u32>
    ensures { result ≡ array_of body.now variable }
{
    let pointer = pointee(body, variable)?;
    let block = pointee(body, pointer)?;
    pointee(body, block)
}
