//! A struct with padding, read out of bytes.

ghost use Rattle.std.specs.Prelude.{◌≡◌, length, IfOk, List, ◌∷◌, [], ◌++◌};
ghost use Rattle.spv_module.specs.declared.module.Operand.TheVariants.{Id, Word};
ghost use Rattle.spv_value.specs.Sample as sample;

use clv_num::Bits;
use clv_place::{List, NoMemory};
use spv_module::module::VERSION;
use spv_module::{Inst, Module, Operand, op};
use spv_value::reading::view;
use spv_value::value::Value;
use std::alloc::Global;
use std::test::Fail;

// An instruction of three operands, and one of four.
fn three(
    alloc: Global,
    op: u16,
    first: Operand,
    second: Operand,
    third: Operand,
) -> Result<Inst, NoMemory>
    ensures { IfOk result (λ i. i ≡ sample.inst op (first ∷ second ∷ third ∷ [])) }
{
    let mut operands = List::new(alloc);
    operands.push(first)?;
    operands.push(second)?;
    operands.push(third)?;
    Ok(Inst { op, operands })
}

fn four(
    alloc: Global,
    op: u16,
    first: Operand,
    second: Operand,
    third: Operand,
    last: Operand,
) -> Result<Inst, NoMemory>
    ensures { IfOk result (λ i. i ≡ sample.inst op (first ∷ second ∷ third ∷ last ∷ [])) }
{
    let mut inst = three(alloc, op, first, second, third)?;
    inst.operands.push(last)?;
    Ok(inst)
}

fn offset(alloc: Global, member: u32, at: u32) -> Result<Inst, NoMemory>
    ensures { IfOk result (λ i. i ≡ sample.offset member at) }
{
    four(
        alloc,
        op::MEMBER_DECORATE,
        Operand::Id(5),
        Operand::Word(member),
        Operand::Word(35),
        Operand::Word(at),
    )
}

fn int(alloc: Global, id: u32, width: u32) -> Result<Inst, NoMemory>
    ensures { IfOk result (λ i. i ≡ sample.int id width) }
{
    three(
        alloc,
        op::TYPE_INT,
        Operand::Id(id),
        Operand::Word(width),
        Operand::Word(0),
    )
}

fn array(alloc: Global) -> Result<Inst, NoMemory>
    ensures { IfOk result (λ i. i ≡ sample.inst 29 (Id 6 ∷ Id 5 ∷ [])) }
{
    let mut operands = List::new(alloc);
    operands.push(Operand::Id(6))?;
    operands.push(Operand::Id(5))?;
    Ok(Inst {
        op: op::TYPE_RUNTIME_ARRAY,
        operands,
    })
}

// Each type of the sample, and its offsets.
fn body(alloc: Global) -> Result<List<Inst>, NoMemory>
    ensures { IfOk result (λ insts. insts ≡ sample.sample) }
{
    let mut insts = List::new(alloc);
    insts.push(offset(alloc, 0, 0)?)?;
    insts.push(offset(alloc, 1, 16)?)?;
    insts.push(offset(alloc, 2, 32)?)?;
    insts.push(int(alloc, 1, 8)?)?;
    insts.push(int(alloc, 2, 32)?)?;
    insts.push(int(alloc, 3, 16)?)?;
    insts.push(three(
        alloc,
        op::TYPE_VECTOR,
        Operand::Id(4),
        Operand::Id(2),
        Operand::Word(3),
    )?)?;
    insts.push(four(
        alloc,
        op::TYPE_STRUCT,
        Operand::Id(5),
        Operand::Id(1),
        Operand::Id(4),
        Operand::Id(3),
    )?)?;
    insts.push(array(alloc)?)?;
    Ok(insts)
}

// The struct that stands in 48 bytes.
#[tactic(auto, using(spv_value::proofs::Samples::sample_layout))]
fn seen(alloc: Global, bytes: &[u8]) -> Result<Value, NoMemory>
    requires { length bytes.now ≡ 48 }
{
    let read = Module {
        version: VERSION,
        generator: 0,
        bound: 7,
        body: body(alloc)?,
    };
    view(alloc, bytes, &read, 5)
}

// The bytes of the struct, 0xee where there is padding.
const BYTES: [u8; 48] = [
    0xfe, 0xee, 0xee, 0xee, 0xee, 0xee, 0xee, 0xee, 0xee, 0xee, 0xee, 0xee, 0xee, 0xee, 0xee, 0xee,
    1, 0, 0, 0, 4, 3, 2, 1, 0xff, 0xff, 0xff, 0xff, 0xee, 0xee, 0xee, 0xee, 0x01, 0x80, 0xee, 0xee,
    0xee, 0xee, 0xee, 0xee, 0xee, 0xee, 0xee, 0xee, 0xee, 0xee, 0xee, 0xee,
];

fn number(value: &Value) -> Option<(u8, u64)> {
    match value {
        Value::Scalar(Some(Bits { width, value })) => Some((*width, *value)),
        _ => None,
    }
}

#[test]
fn reads_a_struct(rt: HostRuntime) -> Result<(), Fail> {
    let Value::Parts(parts) = seen(rt.alloc(), &BYTES)? else {
        return Err("no parts".into());
    };
    let [c, Value::Parts(v), s] = parts.as_slice() else {
        return Err("not three parts".into());
    };
    let [x, y, z] = v.as_slice() else {
        return Err("not three elements".into());
    };
    assert_eq!(rt; number(c), Some((8, 0xfe)));
    assert_eq!(rt; number(x), Some((32, 1)));
    assert_eq!(rt; number(y), Some((32, 0x0102_0304)));
    assert_eq!(rt; number(z), Some((32, 0xffff_ffff)));
    assert_eq!(rt; number(s), Some((16, 0x8001)));
    Ok(())
}
