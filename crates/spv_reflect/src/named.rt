//! What the lines of rows name: texts and numbers, and their definitions.

ghost use Rattle.std.specs.Prelude.{◌≡◌, ◌+◌, ◌<◌, ◌^◌, ◌++◌, length, IfOk, OnOk};
ghost use Rattle.std.specs.List.{AllByRecursion};
ghost use Rattle.spv_module.specs.Words.{IsWord};
ghost use Rattle.spv_reflect.specs.Writing as spec;

use crate::rows::{ArgKindRow, ArgRow, KernelRow, Reflection};
use clv_place::{List, NoMemory, Text};
use spv_module::{Inst, Operand, op};
use std::alloc::Global;

fn set_of(kind: ArgKindRow) -> u32
    ensures { result ≡ spec.set_of kind }
{
    match kind {
        ArgKindRow::Buffer { set, .. } => set,
        _ => 0,
    }
}

fn binding_of(kind: ArgKindRow) -> u32
    ensures { result ≡ spec.binding_of kind }
{
    match kind {
        ArgKindRow::Buffer { binding, .. } => binding,
        _ => 0,
    }
}

fn put_texts_of_args(alloc: Global, texts: &mut List<Text>, args: &[ArgRow]) -> Result<(), NoMemory>
    ensures { OnOk result (texts.new ≡ texts.old ++ spec.texts_of_args args.now) }
{
    let mut rest = args;
    while let [arg, others @ ..] = rest {
        texts.push(Text::from_bytes(alloc, arg.name.as_slice())?)?;
        rest = others;
    }
    Ok(())
}

/// The names of kernels and of their arguments, in order.
pub fn texts_of(alloc: Global, kernels: &[KernelRow]) -> Result<List<Text>, NoMemory>
    ensures { IfOk result (λ texts. texts ≡ spec.texts_of kernels.now) }
{
    let mut texts = List::new(alloc);
    let mut rest = kernels;
    while let [kernel, others @ ..] = rest {
        texts.push(Text::from_bytes(alloc, kernel.name.as_slice())?)?;
        put_texts_of_args(alloc, &mut texts, kernel.args.as_slice())?;
        rest = others;
    }
    Ok(texts)
}

fn put_numbers_of_args(numbers: &mut List<u32>, args: &[ArgRow]) -> Result<(), NoMemory>
    requires { length args.now < 2 ^ 32 }
    ensures { OnOk result (numbers.new ≡ numbers.old ++ spec.numbers_of_args 0 args.now) }
{
    let mut ordinal = 0;
    let mut rest = args;
    while let [arg, others @ ..] = rest {
        numbers.push(ordinal)?;
        numbers.push(set_of(arg.kind))?;
        numbers.push(binding_of(arg.kind))?;
        ordinal += 1;
        rest = others;
    }
    Ok(())
}

fn put_numbers_of_kernels(numbers: &mut List<u32>, kernels: &[KernelRow]) -> Result<(), NoMemory>
    requires { spec.args_in kernels.now < 2 ^ 32 }
    ensures { OnOk result (numbers.new ≡ numbers.old ++ spec.numbers_of_kernels kernels.now) }
{
    let mut rest = kernels;
    while let [kernel, others @ ..] = rest {
        put_numbers_of_args(numbers, kernel.args.as_slice())?;
        rest = others;
    }
    Ok(())
}

fn put_sizes(numbers: &mut List<u32>, sizes: &[u32; 3]) -> Result<(), NoMemory>
    ensures put { OnOk result (numbers.new ≡ numbers.old ++ sizes.now) }
    ensures count { length sizes.now ≡ 3 }
{
    let mut rest = sizes.as_slice();
    while let [number, others @ ..] = rest {
        numbers.push(*number)?;
        rest = others;
    }
    Ok(())
}

/// The numbers of the arguments, and those of the sizes, in order.
pub fn numbers_of(alloc: Global, r: &Reflection) -> Result<List<u32>, NoMemory>
    requires { spec.args_in r.now.kernels < 2 ^ 32 }
    ensures numbers { IfOk result (λ numbers. numbers ≡ spec.numbers_of r.now) }
    ensures three { IfOk result (λ numbers. spec.AreThree r.now.sizes) }
{
    let mut numbers = List::new(alloc);
    put_numbers_of_kernels(&mut numbers, r.kernels.as_slice())?;
    if let Some(sizes) = &r.sizes {
        put_sizes(&mut numbers, sizes)?;
    }
    Ok(numbers)
}

/// Adds an `OpString` for each text, with ids in order.
pub fn put_strings(
    alloc: Global,
    out: &mut List<Inst>,
    first: u32,
    texts: &[Text],
) -> Result<(), NoMemory>
    requires { first + length texts.now < 2 ^ 32 }
    ensures { OnOk result (out.new ≡ out.old ++ spec.strings_from first texts.now) }
{
    let mut id = first;
    let mut rest = texts;
    while let [text, others @ ..] = rest {
        let text = Text::from_bytes(alloc, text.as_slice())?;
        let operands = vec![in alloc; Operand::Id(id), Operand::Str(text)]?;
        out.push(Inst {
            op: op::STRING,
            operands: List::from_vec(operands),
        })?;
        id += 1;
        rest = others;
    }
    Ok(())
}

fn constant_line(alloc: Global, ty: u32, id: u32, value: u32) -> Result<Inst, NoMemory>
    ensures line { IfOk result (λ i. i ≡ spec.constant_line ty id value) }
    ensures word { IsWord value }
{
    let operands = vec![in alloc; Operand::Id(ty), Operand::Id(id), Operand::Word(value)]?;
    Ok(Inst {
        op: op::CONSTANT,
        operands: List::from_vec(operands),
    })
}

/// Adds an `OpConstant` for each number, with ids in order.
pub fn put_constants(
    alloc: Global,
    out: &mut List<Inst>,
    ty: u32,
    first: u32,
    numbers: &[u32],
) -> Result<(), NoMemory>
    requires { first + length numbers.now < 2 ^ 32 }
    ensures put { OnOk result (out.new ≡ out.old ++ spec.constants_from ty first numbers.now) }
    ensures words { OnOk result (AllByRecursion IsWord numbers.now) }
{
    let mut id = first;
    let mut rest = numbers;
    while let [number, others @ ..] = rest {
        out.push(constant_line(alloc, ty, id, *number)?)?;
        id += 1;
        rest = others;
    }
    Ok(())
}
