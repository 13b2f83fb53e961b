//! Rows, written into a module as its reflection lines.

ghost use Rattle.std.specs.Prelude.{◌≡◌, ℕ, Some, ◌+◌, ◌*◌, ◌≤◌, ◌<◌, ◌^◌, ◌++◌, [], length, All, IfOk, OnOk, OnErr};
ghost use Rattle.spv_module.specs.Instructions.{definition_in};
ghost use Rattle.std.specs.List.{AllByRecursion};
ghost use Rattle.spv_module.specs.Words.{IsSpelled, IsWord};
ghost use Rattle.spv_module.specs.declared.module.TheConstants.{MAX_BOUND};
ghost use Rattle.spv_reflect.specs.Reflection.{lines_in, rows_of};
ghost use Rattle.spv_reflect.specs.declared.copying.Section.TheVariants.{Imports, Strings, Types};
ghost use Rattle.spv_reflect.specs.Writing as spec;

use crate::choice::{Wanted, find};
use crate::copying::{Section, put_all, put_section};
use crate::named::{numbers_of, put_constants, put_strings, texts_of};
use crate::rows::Reflection;
use crate::written::{Ids, put_lines};
use clv_place::{List, NoMemory, Text};
use spv_module::{Inst, Module, Operand, op};
use std::alloc::Global;

// What the module has already, and how many texts and numbers are named. Ids from the bound on are those
// of the import, the texts, the types, the numbers and the lines, in this order.
#[derive(Clone, Copy)]
struct Layout {
    import: Option<u32>,
    void: Option<u32>,
    word: Option<u32>,
    bound: u32,
    texts: u32,
    numbers: u32,
}

fn behind(found: Option<u32>, id: u32) -> u32
    requires { id + 1 < 2 ^ 32 }
    ensures { result ≡ id + spec.count_new found }
{
    match found {
        Some(_) => id,
        None => id + 1,
    }
}

impl Layout {
    fn first_text(&self) -> u32
        requires { self.now.bound + 1 < 2 ^ 32 }
        ensures { result ≡ spec.first_text self.now }
    {
        behind(self.import, self.bound)
    }

    fn void_id(&self) -> u32
        requires { self.now.bound + self.now.texts + 1 < 2 ^ 32 }
        ensures { result ≡ spec.void_id self.now }
    {
        self.first_text() + self.texts
    }

    fn word_id(&self) -> u32
        requires { self.now.bound + self.now.texts + 2 < 2 ^ 32 }
        ensures { result ≡ spec.word_id self.now }
    {
        behind(self.void, self.void_id())
    }

    fn first_number(&self) -> u32
        requires { self.now.bound + self.now.texts + 3 < 2 ^ 32 }
        ensures { result ≡ spec.first_number self.now }
    {
        behind(self.word, self.word_id())
    }

    fn first_line(&self) -> u32
        requires { self.now.bound + self.now.texts + self.now.numbers + 3 < 2 ^ 32 }
        ensures { result ≡ spec.first_line self.now }
    {
        self.first_number() + self.numbers
    }
}

fn import_line(alloc: Global, id: u32) -> Result<Inst, NoMemory>
    ensures { IfOk result (λ i. i ≡ spec.import_line id) }
{
    let name = Text::from_bytes(alloc, b"NonSemantic.ClspvReflection.1")?;
    let operands = vec![in alloc; Operand::Id(id), Operand::Str(name)]?;
    Ok(Inst {
        op: op::EXT_INST_IMPORT,
        operands: List::from_vec(operands),
    })
}

fn put_import(alloc: Global, out: &mut List<Inst>, layout: &Layout) -> Result<(), NoMemory>
    ensures { OnOk result (out.new ≡ out.old ++ spec.new_one layout.now.import (spec.import_line layout.now.bound)) }
{
    if layout.import.is_some() {
        return Ok(());
    }
    out.push(import_line(alloc, layout.bound)?)
}

fn put_void(alloc: Global, out: &mut List<Inst>, layout: &Layout) -> Result<(), NoMemory>
    requires { layout.now.bound + layout.now.texts + 1 < 2 ^ 32 }
    ensures { OnOk result (out.new ≡ out.old ++ spec.new_one layout.now.void (spec.void_line (spec.void_id layout.now))) }
{
    if layout.void.is_some() {
        return Ok(());
    }
    let operands = vec![in alloc; Operand::Id(layout.void_id())]?;
    out.push(Inst {
        op: op::TYPE_VOID,
        operands: List::from_vec(operands),
    })
}

fn put_word_type(alloc: Global, out: &mut List<Inst>, layout: &Layout) -> Result<(), NoMemory>
    requires { layout.now.bound + layout.now.texts + 2 < 2 ^ 32 }
    ensures { OnOk result (out.new ≡ out.old ++ spec.new_one layout.now.word (spec.word_type_line (spec.word_id layout.now))) }
{
    if layout.word.is_some() {
        return Ok(());
    }
    let id = layout.word_id();
    let operands = vec![in alloc; Operand::Id(id), Operand::Word(32), Operand::Word(0)]?;
    out.push(Inst {
        op: op::TYPE_INT,
        operands: List::from_vec(operands),
    })
}

// The sections up to the strings, with the import and the texts that are new.
fn put_front<'a>(
    alloc: Global,
    out: &mut List<Inst>,
    layout: &Layout,
    texts: &[Text],
    body: &'a [Inst],
) -> Result<&'a [Inst], NoMemory>
    requires { layout.now.bound + 1 + length texts.now < 2 ^ 32 }
    ensures put { OnOk result (out.new ≡ out.old ++ spec.front_with layout.now texts.now body.now) }
    ensures left { IfOk result (λ rest. rest.now ≡ spec.behind Strings (spec.behind Imports body.now)) }
{
    let rest = put_section(alloc, out, Section::Imports, body)?;
    put_import(alloc, out, layout)?;
    let rest = put_section(alloc, out, Section::Strings, rest)?;
    put_strings(alloc, out, layout.first_text(), texts)?;
    Ok(rest)
}

// The types, with the types and the numbers that are new.
fn put_types<'a>(
    alloc: Global,
    out: &mut List<Inst>,
    layout: &Layout,
    numbers: &[u32],
    body: &'a [Inst],
) -> Result<&'a [Inst], NoMemory>
    requires { layout.now.bound + layout.now.texts + 3 + length numbers.now < 2 ^ 32 }
    ensures put { OnOk result (out.new ≡ out.old ++ spec.types_with layout.now numbers.now body.now) }
    ensures words { OnOk result (AllByRecursion IsWord numbers.now) }
    ensures left { IfOk result (λ rest. rest.now ≡ spec.behind Types body.now) }
{
    let rest = put_section(alloc, out, Section::Types, body)?;
    put_void(alloc, out, layout)?;
    put_word_type(alloc, out, layout)?;
    let word = layout.word.unwrap_or(layout.word_id());
    put_constants(alloc, out, word, layout.first_number(), numbers)?;
    Ok(rest)
}

// The lines of rows, and the next id.
fn put_back(
    alloc: Global,
    out: &mut List<Inst>,
    layout: &Layout,
    r: &Reflection,
) -> Result<u32, NoMemory>
    requires { layout.now.bound + layout.now.texts + layout.now.numbers + 8 * spec.rows_among r.now + 16 < 2 ^ 32 }
    ensures put { OnOk result (out.new ≡ out.old ++ spec.lines_with layout.now r.now) }
    ensures next { IfOk result (λ next. next ≡ spec.first_line layout.now + spec.lines_among r.now) }
{
    let ids = Ids {
        void: layout.void.unwrap_or(layout.void_id()),
        set: layout.import.unwrap_or(layout.bound),
        text: layout.first_text(),
        number: layout.first_number(),
        line: layout.first_line(),
    };
    put_lines(alloc, out, ids, r)
}

/// The body with the lines, and its bound: what `write_reflection` puts into a module. Fails for want of memory alone.
pub fn build(
    alloc: Global,
    body: &[Inst],
    bound: u32,
    r: &Reflection,
) -> Result<(List<Inst>, u32), NoMemory>
    requires { bound + 8 * spec.rows_among r.now + 16 ≤ MAX_BOUND }
    ensures words { IfOk result (λ built. AllByRecursion IsWord (spec.numbers_of r.now)) }
    ensures three { IfOk result (λ built. spec.AreThree r.now.sizes) }
    ensures built { IfOk result (λ built. (built.0 ≡ spec.new_body body.now bound r.now) × (built.1 ≡ spec.new_bound body.now bound r.now)) }
{
    let texts = texts_of(alloc, r.kernels.as_slice())?;
    let numbers = numbers_of(alloc, r)?;
    let layout = Layout {
        import: find(body, Wanted::Import),
        void: find(body, Wanted::Void),
        word: find(body, Wanted::WordType),
        bound,
        texts: texts.len() as u32,
        numbers: numbers.len() as u32,
    };
    let mut out = List::new(alloc);
    let rest = put_front(alloc, &mut out, &layout, texts.as_slice(), body)?;
    let rest = put_types(alloc, &mut out, &layout, numbers.as_slice(), rest)?;
    put_all(alloc, &mut out, rest)?;
    let bound = put_back(alloc, &mut out, &layout, r)?;
    Ok((out, bound))
}

/// Writes rows into a module as its reflection lines (NonSemantic.ClspvReflection.1), behind its last
/// instruction, with what they name. An import of these lines, the type void and a type of 32-bit numbers
/// are added where the module has none. Each is added at the end of its section. For want of memory the
/// module stays as it is.
pub fn write_reflection(alloc: Global, module: &mut Module, r: &Reflection) -> Result<(), NoMemory>
    // The module is one that bytes stand for, and has no reflection line.
    requires spelled { IsSpelled «module».old }
    requires bare { lines_in «module».old.body «module».old.body ≡ [] }
    // The rows are those of functions of the module, and of kinds that are written.
    requires functions { All (spec.IsFunctionRow «module».old.body) r.now.kernels }
    requires kinds { spec.AreOfBuffers r.now }
    requires names { All spec.IsShortString (spec.texts_of r.now.kernels) }
    requires room { «module».old.bound + 8 * spec.rows_among r.now + 16 ≤ MAX_BOUND }
    // What is read back is what was written.
    ensures rows { OnOk result (rows_of «module».new.body ≡ Some r.now) }
    // Where what is added stands.
    ensures added { OnOk result (spec.IsWidened «module».old.body «module».new.body) }
    // What the ids are that were there.
    ensures ids { OnOk result ((id : ℕ) → id < «module».old.bound → definition_in «module».new.body id ≡ definition_in «module».old.body id) }
    // It's still one that bytes stand for, unless it's too large a file.
    ensures whole { OnOk result (spec.StaysSpelled «module».old «module».new) }
    ensures bound { OnOk result ((«module».old.bound ≤ «module».new.bound) × («module».new.bound ≤ «module».old.bound + 8 * spec.rows_among r.now + 16)) }
    ensures refused { OnErr result («module».new ≡ «module».old) }
{
    let (body, bound) = build(alloc, module.body.as_slice(), module.bound, r)?;
    module.body = body;
    module.bound = bound;
    Ok(())
}
