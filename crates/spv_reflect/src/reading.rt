//! The rows of a module, read from its reflection lines.

ghost use Rattle.std.specs.Prelude.{◌≡◌, ◌<◌, ◌^◌, length, Some, None, IfOk, IfErr, ◌↔◌};
ghost use Rattle.spv_module.specs.Words.{module_words};
ghost use Rattle.spv_reflect.specs.declared.rows.Reflection.{Reflection as Rows};
ghost use Rattle.spv_reflect.specs.Reflection as spec;
ghost use Rattle.spv_reflect.specs.Readings.{lines_by, Answers, IsFaultOf, IsBroken};

use crate::line::{Line, PlacedLine, read_lines};
use crate::rows::{ArgKindRow, ArgRow, KernelRow, Reflection};
use crate::rules::fault;
use crate::stop::ReflectStop;
use clv_place::{List, NoMemory, Text};
use spv_module::Module;
use spv_module::size::word_at;
use spv_types_rules::Checked;
use std::alloc::Global;

// The name that the line with this id says, and none where there is no such line.
fn name_in<'a>(lines: &[PlacedLine<'a>], id: u32) -> &'a [u8]
    ensures { result.now ≡ spec.name_in (lines_by lines.now) id }
{
    let mut rest = lines;
    while let [line, others @ ..] = rest {
        if let Line::Name { id: other, name } = line.line {
            if other == id {
                return name.as_slice();
            }
        }
        rest = others;
    }
    &[]
}

// The arguments of a kernel's line, in order.
fn arguments(alloc: Global, lines: &[PlacedLine<'_>], of: u32) -> Result<List<ArgRow>, NoMemory>
    ensures { IfOk result (λ rows. rows ≡ spec.arguments_in (lines_by lines.now) of (lines_by lines.now)) }
{
    let mut rows = List::new(alloc);
    let mut rest = lines;
    while let [line, others @ ..] = rest {
        if let Line::Buffer {
            kernel,
            set,
            binding,
            name,
            ..
        } = line.line
        {
            if kernel == of {
                let name = Text::from_bytes(alloc, name_in(lines, name))?;
                let kind = ArgKindRow::Buffer { set, binding };
                rows.push(ArgRow { name, kind })?;
            }
        }
        rest = others;
    }
    Ok(rows)
}

// The kernels, in the order of their lines.
fn kernels(alloc: Global, lines: &[PlacedLine<'_>]) -> Result<List<KernelRow>, NoMemory>
    ensures { IfOk result (λ rows. rows ≡ spec.kernels_in (lines_by lines.now) (lines_by lines.now)) }
{
    let mut rows = List::new(alloc);
    let mut rest = lines;
    while let [line, others @ ..] = rest {
        if let Line::Kernel { id, function, name } = line.line {
            let name = Text::from_bytes(alloc, name.as_slice())?;
            let args = arguments(alloc, lines, id)?;
            rows.push(KernelRow {
                function,
                name,
                args,
                required: None,
            })?;
        }
        rest = others;
    }
    Ok(rows)
}

// The SpecIds of the sizes, by the first line that says them.
fn sizes(lines: &[PlacedLine<'_>]) -> Option<[u32; 3]>
    ensures { result ≡ spec.sizes_in (lines_by lines.now) }
{
    let mut rest = lines;
    while let [line, others @ ..] = rest {
        if let Line::Sizes { x, y, z, .. } = line.line {
            return Some([x, y, z]);
        }
        rest = others;
    }
    None
}

fn rows(alloc: Global, lines: &[PlacedLine<'_>]) -> Result<Reflection, NoMemory>
    ensures { IfOk result (λ rows. rows ≡ spec.rows_in (lines_by lines.now)) }
{
    Ok(Reflection {
        kernels: kernels(alloc, lines)?,
        sizes: sizes(lines),
        dim: None,
        constants: None,
    })
}

/// What the reflection lines of a module say (NonSemantic.ClspvReflection.1), or the least rule of
/// [`crate::rule`] that a line breaks, at the first line that breaks it.
pub fn read_reflection(alloc: Global, checked: &Checked) -> Result<Reflection, ReflectStop>
    // What is read are the rows.
    ensures found { IfOk result (λ r. spec.rows_of checked.now.body ≡ Some r) }
    // Where there are rows, they are read, unless memory runs out.
    ensures only { (r : Rows) → spec.rows_of checked.now.body ≡ Some r → Answers r result }
    // Which fault it is.
    ensures first { IfErr result (IsFaultOf checked.now.body) }
    // There are rows exactly where no rule is broken.
    ensures whole { (spec.rows_of checked.now.body ≡ None) ↔ IsBroken checked.now.body }
{
    read_rows(alloc, checked.module())
}

/// The same of a module that isn't known to be valid.
pub fn read_rows(alloc: Global, module: &Module) -> Result<Reflection, ReflectStop>
    // A word's index has 32 bits, as in each module that bytes spell.
    requires { length (module_words «module».now) < 2 ^ 32 }
    ensures found { IfOk result (λ r. spec.rows_of «module».now.body ≡ Some r) }
    ensures only { (r : Rows) → spec.rows_of «module».now.body ≡ Some r → Answers r result }
    ensures first { IfErr result (IsFaultOf «module».now.body) }
    ensures whole { (spec.rows_of «module».now.body ≡ None) ↔ IsBroken «module».now.body }
{
    read_all(alloc, module)
}

fn read_all(alloc: Global, module: &Module) -> Result<Reflection, ReflectStop>
    requires { length (module_words «module».now) < 2 ^ 32 }
    ensures found { IfOk result (λ r. spec.rows_of «module».now.body ≡ Some r) }
    ensures first { IfErr result (IsFaultOf «module».now.body) }
{
    let body = module.body.as_slice();
    let read = read_lines(alloc, body)?;
    let lines = read.as_slice();
    if let Some((number, place)) = fault(lines) {
        let word = word_at(body, place);
        return Err(ReflectStop::Fault { number, word });
    }
    Ok(rows(alloc, lines)?)
}
