//! The machine on a module whose kernel returns at once.

ghost use Rattle.std.specs.Prelude.{◌≡◌, ◌∷◌, ◌++◌, [], IfOk, OnOk};
ghost use Rattle.clv_worlds.specs.Worlds.{opening};
ghost use Rattle.spv_module.specs.declared.module.Operand.TheVariants.{Id, Word, Str};
ghost use Rattle.spv_module.specs.declared.op.TheConstants as op;
ghost use Rattle.spv_types_rules.specs.Smallest as spec;
ghost use Rattle.run_machine.specs.Machines.{IsAt};
ghost use Rattle.run_machine.specs.Views.{start_by};

use clv_place::{List, NoMemory, Text};
use run_machine::cells::cells_needed;
use run_machine::ending::{Ending, Stepped};
use run_machine::machine::Machine;
use run_machine::stop::NewStop;
use spv_module::Operand::{Id, Str, Word};
use spv_module::enumerant::{
    addressing_model, built_in, capability, control, decoration, execution_model, memory_model,
};
use spv_module::module::VERSION;
use spv_module::{Inst, Module, Operand, op};
use spv_types_rules::Checked;
use std::alloc::Global;
use std::test::Fail;
use vk_bind::Start;

fn push<const N: usize>(
    alloc: Global,
    body: &mut List<Inst>,
    op: u16,
    operands: [Operand; N],
) -> Result<(), NoMemory>
    ensures { OnOk result (body.new ≡ body.old ++ spec.inst op operands.entry ∷ []) }
{
    let operands = List::from_vec(Vec::from_array(alloc, operands)?);
    body.push(Inst { op, operands })
}

fn string(alloc: Global, bytes: &[u8]) -> Result<Operand, NoMemory>
    ensures { IfOk result (λ o. o ≡ Str bytes.now) }
{
    Ok(Str(Text::from_bytes(alloc, bytes)?))
}

fn extension(alloc: Global, body: &mut List<Inst>, name: &[u8]) -> Result<(), NoMemory>
    ensures { OnOk result (body.new ≡ body.old ++ spec.inst op.EXTENSION (Str name.now ∷ []) ∷ []) }
{
    let name = string(alloc, name)?;
    push(alloc, body, op::EXTENSION, [name])
}

fn import(alloc: Global, body: &mut List<Inst>, name: &[u8]) -> Result<(), NoMemory>
    ensures { OnOk result (body.new ≡ body.old ++ spec.inst op.EXT_INST_IMPORT (Id 1 ∷ Str name.now ∷ []) ∷ []) }
{
    let name = string(alloc, name)?;
    push(alloc, body, op::EXT_INST_IMPORT, [Id(1), name])
}

fn entry_point(alloc: Global, body: &mut List<Inst>, name: &[u8]) -> Result<(), NoMemory>
    ensures { OnOk result (body.new ≡ body.old ++ spec.inst op.ENTRY_POINT (Word 5 ∷ Id 2 ∷ Str name.now ∷ []) ∷ []) }
{
    let name = string(alloc, name)?;
    push(
        alloc,
        body,
        op::ENTRY_POINT,
        [Word(execution_model::GL_COMPUTE), Id(2), name],
    )
}

fn preamble(alloc: Global, body: &mut List<Inst>) -> Result<(), NoMemory>
    ensures { OnOk result (body.new ≡ body.old ++ spec.preamble) }
{
    push(alloc, body, op::CAPABILITY, [Word(capability::SHADER)])?;
    extension(alloc, body, b"SPV_KHR_non_semantic_info")?;
    import(alloc, body, b"NonSemantic.ClspvReflection.1")?;
    push(
        alloc,
        body,
        op::MEMORY_MODEL,
        [Word(addressing_model::LOGICAL), Word(memory_model::GLSL450)],
    )?;
    entry_point(alloc, body, b"k")
}

fn decorations(alloc: Global, body: &mut List<Inst>) -> Result<(), NoMemory>
    ensures { OnOk result (body.new ≡ body.old ++ spec.decorations) }
{
    push(
        alloc,
        body,
        op::DECORATE,
        [Id(3), Word(decoration::SPEC_ID), Word(0)],
    )?;
    push(
        alloc,
        body,
        op::DECORATE,
        [Id(4), Word(decoration::SPEC_ID), Word(1)],
    )?;
    push(
        alloc,
        body,
        op::DECORATE,
        [Id(5), Word(decoration::SPEC_ID), Word(2)],
    )?;
    push(
        alloc,
        body,
        op::DECORATE,
        [
            Id(6),
            Word(decoration::BUILT_IN),
            Word(built_in::WORKGROUP_SIZE),
        ],
    )
}

fn types(alloc: Global, body: &mut List<Inst>) -> Result<(), NoMemory>
    ensures { OnOk result (body.new ≡ body.old ++ spec.types) }
{
    push(alloc, body, op::TYPE_VOID, [Id(7)])?;
    push(alloc, body, op::TYPE_FUNCTION, [Id(8), Id(7)])?;
    push(alloc, body, op::TYPE_INT, [Id(9), Word(32), Word(0)])?;
    push(alloc, body, op::TYPE_VECTOR, [Id(10), Id(9), Word(3)])
}

fn sizes(alloc: Global, body: &mut List<Inst>) -> Result<(), NoMemory>
    ensures { OnOk result (body.new ≡ body.old ++ spec.sizes) }
{
    push(alloc, body, op::SPEC_CONSTANT, [Id(9), Id(3), Word(1)])?;
    push(alloc, body, op::SPEC_CONSTANT, [Id(9), Id(4), Word(1)])?;
    push(alloc, body, op::SPEC_CONSTANT, [Id(9), Id(5), Word(1)])?;
    push(
        alloc,
        body,
        op::SPEC_CONSTANT_COMPOSITE,
        [Id(10), Id(6), Id(3), Id(4), Id(5)],
    )
}

fn function(alloc: Global, body: &mut List<Inst>) -> Result<(), NoMemory>
    ensures { OnOk result (body.new ≡ body.old ++ spec.function) }
{
    push(
        alloc,
        body,
        op::FUNCTION,
        [Id(7), Id(2), Word(control::NONE), Id(8)],
    )?;
    push(alloc, body, op::LABEL, [Id(11)])?;
    push(alloc, body, op::RETURN, [])?;
    push(alloc, body, op::FUNCTION_END, [])
}

// The module of a kernel that returns at once.
fn smallest(alloc: Global) -> Result<Module, NoMemory>
    ensures { IfOk result (λ m. m ≡ spec.smallest) }
{
    let mut body = List::new(alloc);
    preamble(alloc, &mut body)?;
    decorations(alloc, &mut body)?;
    types(alloc, &mut body)?;
    sizes(alloc, &mut body)?;
    function(alloc, &mut body)?;
    Ok(Module {
        version: VERSION,
        generator: 0,
        bound: 12,
        body,
    })
}

// A launch of four items in groups of two, with one buffer.
fn launch(alloc: Global) -> Result<Start, NoMemory>
    ensures { IfOk result (λ s. s.global ≡ 4 ∷ 1 ∷ 1 ∷ []) }
{
    let mut buffers = List::new(alloc);
    buffers.push(Text::from_bytes(alloc, b"ab")?)?;
    Ok(Start {
        checked: Checked::of(smallest(alloc)?),
        function: 2,
        global: [4, 1, 1],
        local: [2, 1, 1],
        named: 1,
        buffers,
        bound: List::new(alloc),
        push: Text::new(alloc),
        specs: List::new(alloc),
    })
}

// Its machine, before the first step.
fn machine(alloc: Global) -> Result<Machine, NewStop>
    ensures at { IfOk result (λ m. IsAt m (opening (start_by m.start).buffers)) }
    ensures sizes { IfOk result (λ m. m.start.global ≡ 4 ∷ 1 ∷ 1 ∷ []) }
{
    Machine::new(alloc, launch(alloc)?)
}

// One cell for each call.
#[test]
fn counts_cells(rt: HostRuntime) -> Result<(), Fail> {
    let start = launch(rt.alloc())?;
    assert_eq!(rt; cells_needed(&start), 4);
    Ok(())
}

#[test]
fn begins_a_block_in_a_step(rt: HostRuntime) -> Result<(), Fail> {
    let mut machine = machine(rt.alloc())?;
    let stepped = machine.step(0)?;
    assert_eq!(rt; stepped, Stepped::Went);
    Ok(())
}

// Each item makes two steps: it enters its block and returns.
#[test]
fn runs_all_items(rt: HostRuntime) -> Result<(), Fail> {
    let mut machine = machine(rt.alloc())?;
    let ending = machine.run(1, 100)?;
    assert_eq!(rt; ending, Ending::Done { steps: 8 });
    let buffers = machine.buffers();
    assert_eq!(rt; buffers.len(), 1);
    for buffer in buffers.as_slice() {
        assert_eq!(rt; buffer.as_slice(), b"ab".as_slice());
    }
    Ok(())
}

#[test]
fn spends_a_budget(rt: HostRuntime) -> Result<(), Fail> {
    let mut machine = machine(rt.alloc())?;
    let ending = machine.run(1, 5)?;
    assert_eq!(rt; ending, Ending::Spent);
    Ok(())
}
