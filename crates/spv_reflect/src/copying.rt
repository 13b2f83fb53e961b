//! Copies of instructions, section by section.

ghost use Rattle.std.specs.Prelude.{◌≡◌, ◌++◌, IfOk, OnOk};
ghost use Rattle.spv_reflect.specs.Writing as spec;

use clv_place::{List, NoMemory, Text};
use spv_module::{Inst, Operand, op};
use std::alloc::Global;

/// Sections of a module that follow each other (SPIR-V 2.4).
#[derive(Clone, Copy)]
pub enum Section {
    /// Capabilities, extensions and imports.
    Imports,
    /// The memory model, entry points, execution modes and strings.
    Strings,
    /// Names, decorations, types, constants and variables: all that is no function.
    Types,
}

fn is_in(section: Section, code: u16) -> bool
    ensures { result ≡ spec.is_in section code }
{
    match section {
        Section::Imports => {
            code == op::CAPABILITY || code == op::EXTENSION || code == op::EXT_INST_IMPORT
        }
        Section::Strings => {
            code == op::MEMORY_MODEL
                || code == op::ENTRY_POINT
                || code == op::EXECUTION_MODE
                || code == op::STRING
        }
        Section::Types => code != op::FUNCTION,
    }
}

fn copy_operand(alloc: Global, operand: &Operand) -> Result<Operand, NoMemory>
    ensures { IfOk result (λ copy. copy ≡ operand.now) }
{
    Ok(match operand {
        Operand::Id(id) => Operand::Id(*id),
        Operand::Word(word) => Operand::Word(*word),
        Operand::Str(text) => Operand::Str(Text::from_bytes(alloc, text.as_slice())?),
    })
}

fn copy_inst(alloc: Global, inst: &Inst) -> Result<Inst, NoMemory>
    ensures { IfOk result (λ copy. copy ≡ inst.now) }
{
    let mut operands = List::new(alloc);
    let mut rest = inst.operands.as_slice();
    while let [operand, others @ ..] = rest {
        operands.push(copy_operand(alloc, operand)?)?;
        rest = others;
    }
    Ok(Inst {
        op: inst.op,
        operands,
    })
}

/// Adds copies of the instructions that stand first in a section, and gives those that are left.
pub fn put_section<'a>(
    alloc: Global,
    out: &mut List<Inst>,
    section: Section,
    insts: &'a [Inst],
) -> Result<&'a [Inst], NoMemory>
    ensures copied { OnOk result (out.new ≡ out.old ++ spec.leading section insts.now) }
    ensures left { IfOk result (λ rest. rest.now ≡ spec.behind section insts.now) }
{
    let mut rest = insts;
    while let [inst, others @ ..] = rest {
        if !is_in(section, inst.op) {
            return Ok(rest);
        }
        out.push(copy_inst(alloc, inst)?)?;
        rest = others;
    }
    Ok(rest)
}

/// Adds copies of instructions.
pub fn put_all(alloc: Global, out: &mut List<Inst>, insts: &[Inst]) -> Result<(), NoMemory>
    ensures { OnOk result (out.new ≡ out.old ++ insts.now) }
{
    let mut rest = insts;
    while let [inst, others @ ..] = rest {
        out.push(copy_inst(alloc, inst)?)?;
        rest = others;
    }
    Ok(())
}
