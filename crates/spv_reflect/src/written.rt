//! The reflection lines of rows.

ghost use Rattle.std.specs.Prelude.{◌≡◌, ◌+◌, ◌*◌, ◌<◌, ◌^◌, ◌++◌, length, IfOk, OnOk};
ghost use Rattle.spv_reflect.specs.Writing as spec;

use crate::line::number;
use crate::rows::{ArgRow, KernelRow, Reflection};
use clv_place::{List, NoMemory};
use spv_module::{Inst, Operand, op};
use std::alloc::Global;

/// The ids of what each line names, and the next id of a text, of a number and of a line.
#[derive(Clone, Copy)]
pub struct Ids {
    pub void: u32,
    pub set: u32,
    pub text: u32,
    pub number: u32,
    pub line: u32,
}

fn extended_line(
    alloc: Global,
    ids: Ids,
    id: u32,
    number: u32,
    named: &[u32],
) -> Result<Inst, NoMemory>
    ensures { IfOk result (λ i. i ≡ spec.extended_line ids.void ids.set id number named.now) }
{
    let first = vec![in alloc;
        Operand::Id(ids.void),
        Operand::Id(id),
        Operand::Id(ids.set),
        Operand::Word(number),
    ]?;
    let mut operands = List::from_vec(first);
    let mut rest = named;
    while let [name, others @ ..] = rest {
        operands.push(Operand::Id(*name))?;
        rest = others;
    }
    Ok(Inst {
        op: op::EXT_INST,
        operands,
    })
}

// The line of an argument that is a buffer.
fn buffer_line(alloc: Global, kernel: u32, ids: Ids) -> Result<Inst, NoMemory>
    requires { (ids.number + 2 < 2 ^ 32) × (ids.line + 1 < 2 ^ 32) }
    ensures { IfOk result (λ i. i ≡ spec.buffer_line ids.void ids.set kernel ids.number ids.line) }
{
    let id = ids.line + 1;
    let set = ids.number + 1;
    let binding = ids.number + 2;
    let number = number::ARGUMENT_STORAGE_BUFFER;
    extended_line(
        alloc,
        ids,
        id,
        number,
        &[kernel, ids.number, set, binding, ids.line],
    )
}

// An argument's two lines.
fn put_arg(alloc: Global, out: &mut List<Inst>, kernel: u32, ids: Ids) -> Result<(), NoMemory>
    requires { (ids.number + 2 < 2 ^ 32) × (ids.line + 1 < 2 ^ 32) }
    ensures { OnOk result (out.new ≡ out.old ++ spec.lines_of_arg ids.void ids.set kernel ids.text ids.number ids.line) }
{
    out.push(extended_line(alloc, ids, ids.line, number::ARGUMENT_INFO, &[ids.text])?)?;
    out.push(buffer_line(alloc, kernel, ids)?)?;
    Ok(())
}

fn put_args(
    alloc: Global,
    out: &mut List<Inst>,
    kernel: u32,
    first: Ids,
    args: &[ArgRow],
) -> Result<(), NoMemory>
    requires { (first.text + length args.now < 2 ^ 32) × (first.number + 3 * length args.now < 2 ^ 32) × (first.line + 2 * length args.now < 2 ^ 32) }
    ensures { OnOk result (out.new ≡ out.old ++ spec.lines_of_args first.void first.set kernel first.text first.number first.line args.now) }
{
    let mut ids = first;
    let mut rest = args;
    while let [_, others @ ..] = rest {
        put_arg(alloc, out, kernel, ids)?;
        ids = Ids {
            text: ids.text + 1,
            number: ids.number + 3,
            line: ids.line + 2,
            ..ids
        };
        rest = others;
    }
    Ok(())
}

// A kernel's line and those of its arguments.
fn put_kernel(
    alloc: Global,
    out: &mut List<Inst>,
    ids: Ids,
    kernel: &KernelRow,
) -> Result<Ids, NoMemory>
    requires { (ids.text + 1 + length kernel.now.args < 2 ^ 32) × (ids.number + 3 * length kernel.now.args < 2 ^ 32) × (ids.line + 1 + 2 * length kernel.now.args < 2 ^ 32) }
    ensures put { OnOk result (out.new ≡ out.old ++ spec.lines_of_kernel ids.void ids.set ids.text ids.number ids.line kernel.now) }
    ensures next { IfOk result (λ next. next ≡ record { void = ids.void; set = ids.set; text = ids.text + 1 + length kernel.now.args; number = ids.number + 3 * length kernel.now.args; line = ids.line + 1 + 2 * length kernel.now.args }) }
{
    let args = kernel.args.as_slice();
    let count = args.len() as u32;
    out.push(extended_line(
        alloc,
        ids,
        ids.line,
        number::KERNEL,
        &[kernel.function, ids.text],
    )?)?;
    let first = Ids {
        text: ids.text + 1,
        line: ids.line + 1,
        ..ids
    };
    put_args(alloc, out, ids.line, first, args)?;
    Ok(Ids {
        text: first.text + count,
        number: ids.number + 3 * count,
        line: first.line + 2 * count,
        ..ids
    })
}

fn put_kernels(
    alloc: Global,
    out: &mut List<Inst>,
    first: Ids,
    kernels: &[KernelRow],
) -> Result<Ids, NoMemory>
    requires { (first.text + length kernels.now + spec.args_in kernels.now < 2 ^ 32) × (first.number + 3 * spec.args_in kernels.now < 2 ^ 32) × (first.line + length kernels.now + 2 * spec.args_in kernels.now < 2 ^ 32) }
    ensures put { OnOk result (out.new ≡ out.old ++ spec.lines_of_kernels first.void first.set first.text first.number first.line kernels.now) }
    ensures next { IfOk result (λ next. next ≡ record { void = first.void; set = first.set; text = first.text + length kernels.now + spec.args_in kernels.now; number = first.number + 3 * spec.args_in kernels.now; line = first.line + length kernels.now + 2 * spec.args_in kernels.now }) }
{
    let mut ids = first;
    let mut rest = kernels;
    while let [kernel, others @ ..] = rest {
        ids = put_kernel(alloc, out, ids, kernel)?;
        rest = others;
    }
    Ok(ids)
}

/// Adds the lines of rows, and gives the next id.
pub fn put_lines(
    alloc: Global,
    out: &mut List<Inst>,
    first: Ids,
    r: &Reflection,
) -> Result<u32, NoMemory>
    requires { (first.text + length r.now.kernels + spec.args_in r.now.kernels < 2 ^ 32) × (first.number + 3 * spec.args_in r.now.kernels + 3 < 2 ^ 32) × (first.line + length r.now.kernels + 2 * spec.args_in r.now.kernels + 1 < 2 ^ 32) }
    ensures put { OnOk result (out.new ≡ out.old ++ spec.lines_of first.void first.set first.text first.number first.line r.now) }
    ensures next { IfOk result (λ next. next ≡ first.line + spec.lines_among r.now) }
{
    let ids = put_kernels(alloc, out, first, r.kernels.as_slice())?;
    if r.sizes.is_none() {
        return Ok(ids.line);
    }
    let named = [ids.number, ids.number + 1, ids.number + 2];
    out.push(extended_line(
        alloc,
        ids,
        ids.line,
        number::SPEC_CONSTANT_WORKGROUP_SIZE,
        &named,
    )?)?;
    Ok(ids.line + 1)
}
