//! Reflection lines, read by what their operands say.

ghost use Rattle.std.specs.Prelude.{◌≡◌, [], ◌++◌, IfOk, OnOk, option_map, option_copied};
ghost use Rattle.spv_module.specs.Instructions.{said, definition_in, ids as ids_in};
ghost use Rattle.spv_reflect.specs.Reflection as spec;
ghost use Rattle.spv_reflect.specs.Readings.{line_by as line_read, three_numbers as numbers_read, placed_at, placed_by, lines_from};

use clv_place::{List, NoMemory, Text};
use spv_module::lookup::definition;
use spv_module::reading::Said;
use spv_module::{Inst, Operand};
use std::alloc::Global;

/// A reflection line: the id of its result, and what its operands say. A kernel and a name that a line
/// of an argument names are the ids of their lines.
#[derive(Clone, Copy)]
pub enum Line<'a> {
    Kernel {
        id: u32,
        function: u32,
        name: &'a Text,
    },
    Name {
        id: u32,
        name: &'a Text,
    },
    Buffer {
        id: u32,
        kernel: u32,
        ordinal: u32,
        set: u32,
        binding: u32,
        name: u32,
    },
    Sizes {
        id: u32,
        x: u32,
        y: u32,
        z: u32,
    },
    /// A line of a known number with other operands than it takes.
    Wrong {
        id: u32,
        number: u32,
    },
    /// A line of another number.
    Unknown,
}

/// A line, and the place of its instruction in the body.
#[derive(Clone, Copy)]
pub struct PlacedLine<'a> {
    pub place: usize,
    pub line: Line<'a>,
}

/// The numbers of the lines (NonSemantic.ClspvReflection.1).
pub mod number {
    pub const KERNEL: u32 = 1;

    pub const ARGUMENT_INFO: u32 = 2;

    pub const ARGUMENT_STORAGE_BUFFER: u32 = 3;

    pub const SPEC_CONSTANT_WORKGROUP_SIZE: u32 = 12;
}

/// Whether the id is that of a type of 32-bit numbers.
pub fn is_word_type(body: &[Inst], id: u32) -> bool
    ensures { result ≡ spec.is_word_type (definition_in body.now id) }
{
    match definition(body, id) {
        Some(Said::IntType { width, .. }) => width == 32,
        _ => false,
    }
}

// The number that a 32-bit constant is.
fn number_at(body: &[Inst], id: u32) -> Option<u32>
    ensures { result ≡ spec.number_at body.now id }
{
    match definition(body, id)? {
        Said::Constant { ty, value, .. } if is_word_type(body, ty) => Some(value),
        _ => None,
    }
}

fn text_at(body: &[Inst], id: u32) -> Option<&Text>
    ensures { option_copied result ≡ spec.text_at body.now id }
{
    match definition(body, id)? {
        Said::String { text, .. } => Some(text),
        _ => None,
    }
}

fn function_at(body: &[Inst], id: u32) -> Option<u32>
    ensures { result ≡ spec.function_by (definition_in body.now id) }
{
    match definition(body, id)? {
        Said::Function { id, .. } => Some(id),
        _ => None,
    }
}

/// Whether the id is that of the import of NonSemantic.ClspvReflection.1.
pub fn is_reflection(body: &[Inst], id: u32) -> bool
    ensures { result ≡ spec.is_reflection (definition_in body.now id) }
{
    match definition(body, id) {
        Some(Said::Import { name, .. }) => name.as_slice()
            == b"NonSemantic.ClspvReflection.1".as_slice(),
        _ => false,
    }
}

fn kernel_line<'a>(body: &'a [Inst], id: u32, operands: &[u32]) -> Line<'a>
    ensures { line_read result ≡ spec.kernel_line body.now id operands.now }
{
    let wrong = Line::Wrong {
        id,
        number: number::KERNEL,
    };
    let [function, name] = operands else {
        return wrong;
    };
    match (function_at(body, *function), text_at(body, *name)) {
        (Some(function), Some(name)) => Line::Kernel { id, function, name },
        _ => wrong,
    }
}

fn name_line<'a>(body: &'a [Inst], id: u32, operands: &[u32]) -> Line<'a>
    ensures { line_read result ≡ spec.name_line body.now id operands.now }
{
    let wrong = Line::Wrong {
        id,
        number: number::ARGUMENT_INFO,
    };
    let [name] = operands else {
        return wrong;
    };
    match text_at(body, *name) {
        Some(name) => Line::Name { id, name },
        None => wrong,
    }
}

fn buffer_line<'a>(body: &'a [Inst], id: u32, operands: &[u32]) -> Line<'a>
    ensures { line_read result ≡ spec.buffer_line body.now id operands.now }
{
    let wrong = Line::Wrong {
        id,
        number: number::ARGUMENT_STORAGE_BUFFER,
    };
    let [kernel, ordinal, set, binding, name] = operands else {
        return wrong;
    };
    match three_numbers(body, *ordinal, *set, *binding) {
        Some((ordinal, set, binding)) => Line::Buffer {
            id,
            kernel: *kernel,
            ordinal,
            set,
            binding,
            name: *name,
        },
        None => wrong,
    }
}

fn sizes_line<'a>(body: &'a [Inst], id: u32, operands: &[u32]) -> Line<'a>
    ensures { line_read result ≡ spec.sizes_line body.now id operands.now }
{
    let wrong = Line::Wrong {
        id,
        number: number::SPEC_CONSTANT_WORKGROUP_SIZE,
    };
    let [x, y, z] = operands else {
        return wrong;
    };
    match three_numbers(body, *x, *y, *z) {
        Some((x, y, z)) => Line::Sizes { id, x, y, z },
        None => wrong,
    }
}

fn three_numbers(body: &[Inst], a: u32, b: u32, c: u32) -> Option<(u32, u32, u32)>
    ensures { result ≡ numbers_read body.now a b c }
{
    Some((
        number_at(body, a)?,
        number_at(body, b)?,
        number_at(body, c)?,
    ))
}

// The line of a number, with these ids as its operands.
fn line_by<'a>(body: &'a [Inst], number: u32, id: u32, operands: &[u32]) -> Line<'a>
    ensures { line_read result ≡ spec.line_by body.now number id operands.now }
{
    match number {
        number::KERNEL => kernel_line(body, id, operands),
        number::ARGUMENT_INFO => name_line(body, id, operands),
        number::ARGUMENT_STORAGE_BUFFER => buffer_line(body, id, operands),
        number::SPEC_CONSTANT_WORKGROUP_SIZE => sizes_line(body, id, operands),
        _ => Line::Unknown,
    }
}

fn ids(alloc: Global, operands: &[Operand]) -> Result<List<u32>, NoMemory>
    ensures { IfOk result (λ found. found ≡ ids_in operands.now) }
{
    let mut found = List::new(alloc);
    let mut rest = operands;
    while let [operand, others @ ..] = rest {
        if let Operand::Id(id) = operand {
            found.push(*id)?;
        }
        rest = others;
    }
    Ok(found)
}

// The line that an instruction is, where it is one.
fn line_of<'a>(alloc: Global, body: &'a [Inst], inst: &Inst) -> Result<Option<Line<'a>>, NoMemory>
    ensures { IfOk result (λ line. option_map line_read line ≡ spec.line_of body.now (said inst.now)) }
{
    match inst.says() {
        Said::Extended {
            id,
            set,
            number,
            operands,
            ..
        } if is_reflection(body, set) => {
            let ids = ids(alloc, operands)?;
            Ok(Some(line_by(body, number, id, ids.as_slice())))
        }
        _ => Ok(None),
    }
}

// Adds the line of the instruction at a place, where it is one.
#[tactic(auto, using(crate::proofs::Steps::added_steps))]
fn add<'a>(
    lines: &mut List<PlacedLine<'a>>,
    place: usize,
    line: Option<Line<'a>>,
) -> Result<(), NoMemory>
    ensures { OnOk result (placed_by lines.new ≡ placed_by lines.old ++ placed_at place (option_map line_read line.entry) []) }
{
    match line {
        Some(line) => {
            lines.push(PlacedLine { place, line })?;
            Ok(())
        }
        None => Ok(()),
    }
}

/// The reflection lines of a module, in order.
pub fn read_lines(alloc: Global, body: &[Inst]) -> Result<List<PlacedLine<'_>>, NoMemory>
    ensures { IfOk result (λ lines. placed_by lines ≡ lines_from body.now 0 body.now) }
{
    let mut lines = List::new(alloc);
    let mut rest = body;
    let mut place = 0;
    while let [inst, others @ ..] = rest {
        let line = line_of(alloc, body, inst)?;
        add(&mut lines, place, line)?;
        rest = others;
        place += 1;
    }
    Ok(lines)
}
