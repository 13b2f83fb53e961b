//! A small module, and its bytes.

ghost use Rattle.spv_module.specs.Words.{HasCount};
ghost use Rattle.std.specs.Prelude.{All, IfOk};

use clv_place::{List, NoMemory, Text};
use spv_binary::write;
use spv_module::{Inst, Module, Operand};
use std::alloc::Global;
use std::test::Fail;

/// `OpString` of the id 4 and the text `main`.
fn string(alloc: Global) -> Result<Inst, NoMemory>
    ensures { IfOk result HasCount }
{
    let text = Text::from_bytes(alloc, b"main")?;
    let operands = vec![in alloc; Operand::Id(4), Operand::Str(text)]?;
    Ok(Inst {
        op: 7,
        operands: List::from_vec(operands),
    })
}

/// A module of that instruction alone.
fn sample(alloc: Global) -> Result<Module, NoMemory>
    ensures { IfOk result (λ m. All HasCount m.body) }
{
    let body = vec![in alloc; string(alloc)?]?;
    Ok(Module {
        version: 0x0001_0300,
        generator: 0,
        bound: 5,
        body: List::from_vec(body),
    })
}

#[test]
fn writes_a_string(rt: HostRuntime) -> Result<(), Fail> {
    let bytes = write(rt.alloc(), &sample(rt.alloc())?)?;
    let expected = b"\x03\x02\x23\x07\0\x03\x01\0\0\0\0\0\x05\0\0\0\0\0\0\0\
        \x07\0\x04\0\x04\0\0\0main\0\0\0\0";
    assert_eq!(rt; bytes.as_slice(), expected.as_slice());
    Ok(())
}
