//! What a small module says of its ids.

use clv_place::{List, NoMemory, Text};
use spv_module::enumerant::{decoration, storage_class};
use spv_module::lookup::{
    decoration_number, definition, is_at, is_decorated, is_member_decorated,
    member_decoration_number, pointee,
};
use spv_module::reading::Said;
use spv_module::{Inst, Operand, op};
use std::alloc::Global;
use std::test::Fail;

fn inst(op: u16, operands: Vec<Operand>) -> Inst {
    Inst {
        op,
        operands: List::from_vec(operands),
    }
}

// A name, a variable at set 1 and binding 2, and the types that it leads to.
fn sample(alloc: Global) -> Result<Vec<Inst>, NoMemory> {
    use Operand::{Id, Str, Word};
    Ok(vec![in alloc;
        inst(
            op::STRING,
            vec![in alloc; Id(1), Str(Text::from_bytes(alloc, b"kernel")?)]?
        ),
        inst(
            op::DECORATE,
            vec![in alloc; Id(6), Word(decoration::DESCRIPTOR_SET), Word(1)]?
        ),
        inst(
            op::DECORATE,
            vec![in alloc; Id(6), Word(decoration::BINDING), Word(2)]?
        ),
        inst(
            op::DECORATE,
            vec![in alloc; Id(3), Word(decoration::ARRAY_STRIDE), Word(4)]?
        ),
        inst(
            op::MEMBER_DECORATE,
            vec![in alloc; Id(4), Word(0), Word(decoration::OFFSET), Word(8)]?
        ),
        inst(op::TYPE_INT, vec![in alloc; Id(2), Word(32), Word(0)]?),
        inst(op::TYPE_RUNTIME_ARRAY, vec![in alloc; Id(3), Id(2)]?),
        inst(op::TYPE_STRUCT, vec![in alloc; Id(4), Id(3)]?),
        inst(
            op::TYPE_POINTER,
            vec![in alloc; Id(5), Word(storage_class::STORAGE_BUFFER), Id(4)]?
        ),
        inst(
            op::VARIABLE,
            vec![in alloc; Id(5), Id(6), Word(storage_class::STORAGE_BUFFER)]?
        ),
    ]?)
}

#[test]
fn follows_a_variable_to_its_elements(rt: HostRuntime) -> Result<(), Fail> {
    let body = sample(rt.alloc())?;
    assert_eq!(rt; pointee(&body, 6), Some(5));
    assert_eq!(rt; pointee(&body, 5), Some(4));
    assert_eq!(rt; pointee(&body, 4), Some(3));
    assert_eq!(rt; pointee(&body, 3), None);
    assert!(rt;
        matches!(
            definition(&body, 3),
            Some(Said::RuntimeArray { id: 3, element: 2 })
        )
    );
    assert!(rt; definition(&body, 7).is_none());
    Ok(())
}

#[test]
fn reads_decorations(rt: HostRuntime) -> Result<(), Fail> {
    let body = sample(rt.alloc())?;
    assert_eq!(rt;
        decoration_number(&body, 3, decoration::ARRAY_STRIDE),
        Some(4)
    );
    assert_eq!(rt; decoration_number(&body, 4, decoration::ARRAY_STRIDE), None);
    assert_eq!(rt;
        member_decoration_number(&body, 4, 0, decoration::OFFSET),
        Some(8)
    );
    assert_eq!(rt;
        member_decoration_number(&body, 4, 1, decoration::OFFSET),
        None
    );
    assert!(rt; is_decorated(&body, 3, decoration::ARRAY_STRIDE));
    assert!(rt; !is_decorated(&body, 4, decoration::BLOCK));
    assert!(rt; is_member_decorated(&body, 4, 0, decoration::OFFSET));
    assert!(rt; !is_member_decorated(&body, 4, 1, decoration::OFFSET));
    assert!(rt; is_at(&body, 6, 1, 2));
    assert!(rt; !is_at(&body, 6, 2, 1));
    Ok(())
}
