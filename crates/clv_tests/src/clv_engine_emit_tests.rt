//! The module of a small kernel.

ghost use Rattle.std.specs.Prelude.{IfOk, ◌≡◌, length};

use clv_engine::emit::emit;
use clv_engine::form::{Kernel, Term};
use clv_place::{List, NoMemory};
use std::alloc::Global;
use std::test::Fail;

/// `k` with the argument `a`, and the sum `get_global_id(0)+7`.
fn sample(alloc: Global) -> Result<Kernel, NoMemory>
    ensures { IfOk result (λ k. length k.terms ≡ 2) }
{
    let terms = vec![in alloc; Term::GlobalId, Term::Literal(7)]?;
    Ok(Kernel {
        name: b'k',
        argument: b'a',
        terms: List::from_vec(terms),
    })
}

#[test]
fn emits_a_sum(rt: HostRuntime) -> Result<(), Fail> {
    let module = emit(rt.alloc(), &sample(rt.alloc())?)?;
    assert_eq!(rt; module.version, 0x0001_0300);
    assert_eq!(rt; module.bound, 37);
    assert_eq!(rt; module.body.len(), 52);
    // OpCapability, the literal's OpConstant, OpFunction, OpIAdd, OpReturn and the last OpExtInst
    for (at, op, operands) in [
        (0, 17, 1),
        (36, 43, 3),
        (37, 54, 4),
        (43, 128, 4),
        (46, 253, 0),
        (51, 12, 7),
    ] {
        let inst = module.body.get(at).ok_or("no instruction")?;
        assert_eq!(rt; (inst.op, inst.operands.len()), (op, operands), "at {at}");
    }
    Ok(())
}
