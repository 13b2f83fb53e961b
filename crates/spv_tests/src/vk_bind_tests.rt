//! A module of two buffer variables, a kernel whose arguments name them the other way round, and launches.

use clv_place::{List, NoMemory, Text};
use launch_text::read_launch;
use spv_module::enumerant::{decoration, storage_class};
use spv_module::{Inst, Operand, op};
use spv_reflect::{ArgKindRow, ArgRow, KernelRow};
use std::alloc::{AllocError, Global};
use std::test::Fail;
use vk_bind::binding::{bound_rows, judged};
use vk_bind::parameters::{kernel_row, parameters};
use vk_bind::start::{BindStop, Bound};

// Adds an instruction of ids and then words.
fn add(
    body: &mut List<Inst>,
    alloc: Global,
    op: u16,
    ids: &[u32],
    words: &[u32],
) -> Result<(), NoMemory> {
    let mut operands = List::new(alloc);
    for id in ids {
        operands.push(Operand::Id(*id))?;
    }
    for word in words {
        operands.push(Operand::Word(*word))?;
    }
    body.push(Inst { op, operands })
}

// Adds a pointer type, whose storage stands between its ids.
fn add_pointer(
    body: &mut List<Inst>,
    alloc: Global,
    id: u32,
    pointee: u32,
) -> Result<(), NoMemory> {
    let mut operands = List::new(alloc);
    operands.push(Operand::Id(id))?;
    operands.push(Operand::Word(storage_class::STORAGE_BUFFER))?;
    operands.push(Operand::Id(pointee))?;
    body.push(Inst {
        op: op::TYPE_POINTER,
        operands,
    })
}

// Variable 21 at set 0 and binding 1 has elements of 4 bytes, and variable 22 behind it, at set 1 and
// binding 0, has elements of 8.
fn module(alloc: Global) -> Result<List<Inst>, NoMemory> {
    let mut body = List::new(alloc);
    for (variable, set, binding) in [(21, 0, 1), (22, 1, 0)] {
        let at = [decoration::DESCRIPTOR_SET, set];
        add(&mut body, alloc, op::DECORATE, &[variable], &at)?;
        let at = [decoration::BINDING, binding];
        add(&mut body, alloc, op::DECORATE, &[variable], &at)?;
    }
    for (array, stride) in [(3, 4), (6, 8)] {
        let apart = [decoration::ARRAY_STRIDE, stride];
        add(&mut body, alloc, op::DECORATE, &[array], &apart)?;
    }
    add(&mut body, alloc, op::TYPE_INT, &[2], &[32, 0])?;
    for (variable, array, block, pointer) in [(21, 3, 4, 5), (22, 6, 7, 8)] {
        add(&mut body, alloc, op::TYPE_RUNTIME_ARRAY, &[array, 2], &[])?;
        add(&mut body, alloc, op::TYPE_STRUCT, &[block, array], &[])?;
        add_pointer(&mut body, alloc, pointer, block)?;
        let storage = [storage_class::STORAGE_BUFFER];
        add(
            &mut body,
            alloc,
            op::VARIABLE,
            &[pointer, variable],
            &storage,
        )?;
    }
    Ok(body)
}

// The row of a kernel whose arguments are at these sets and bindings.
fn row(alloc: Global, name: &[u8], pairs: &[(u32, u32)]) -> Result<KernelRow, NoMemory> {
    let mut args = List::new(alloc);
    for (set, binding) in pairs {
        args.push(ArgRow {
            name: Text::new(alloc),
            kind: ArgKindRow::Buffer {
                set: *set,
                binding: *binding,
            },
        })?;
    }
    Ok(KernelRow {
        function: 30,
        name: Text::from_bytes(alloc, name)?,
        args,
        required: None,
    })
}

const PAIRS: [(u32, u32); 2] = [(1, 0), (0, 1)];

// The strides of what two arguments at these sets and bindings take.
fn strides(alloc: Global, body: &[Inst], pairs: &[(u32, u32)]) -> Result<Option<[u32; 2]>, Fail> {
    let row = row(alloc, b"k", pairs)?;
    let Some(found) = parameters(alloc, body, row.args.as_slice())? else {
        return Ok(None);
    };
    match found.as_slice() {
        [a, b] => Ok(Some([a.stride, b.stride])),
        _ => Err("another number of arguments".into()),
    }
}

#[test]
fn takes_what_rows_name(rt: HostRuntime) -> Result<(), Fail> {
    let body = module(rt.alloc())?;
    let table: [(&[(u32, u32)], Option<[u32; 2]>); 3] = [
        (&[(1, 0), (0, 1)], Some([8, 4])),
        (&[(0, 1), (1, 0)], Some([4, 8])),
        (&[(0, 1), (0, 0)], None),
    ];
    for (pairs, wanted) in table {
        let found = strides(rt.alloc(), body.as_slice(), pairs)?;
        assert_eq!(rt; found, wanted);
    }
    Ok(())
}

#[test]
fn finds_kernels_by_name(rt: HostRuntime) -> Result<(), Fail> {
    let mut rows = List::new(rt.alloc());
    for (name, count) in [(b"one", 1), (b"two", 2)] {
        rows.push(row(rt.alloc(), name.as_slice(), &PAIRS[..count])?)?;
    }
    let two = kernel_row(rows.as_slice(), b"two").ok_or("not found")?;
    assert_eq!(rt; two.args.len(), 2);
    assert!(rt; kernel_row(rows.as_slice(), b"tw").is_none());
    Ok(())
}

// A buffer of so many bytes for each name.
fn zeros(alloc: Global, sizes: &[usize]) -> Result<Vec<Text>, AllocError> {
    let mut buffers = Vec::new(alloc);
    for size in sizes {
        buffers.push(Text::from_vec(vec![in alloc; 0u8; *size]?))?;
    }
    Ok(buffers)
}

type Verdict = Option<(u8, Option<u32>)>;

// What is said of a launch with such sizes, such lines of arguments and buffers of so many bytes.
fn verdict(alloc: Global, grid: &str, args: &str, sizes: &[usize]) -> Result<Verdict, Fail> {
    let body = module(alloc)?;
    let row = row(alloc, b"k", &PAIRS)?;
    let text = format!(in alloc; "kernel k\n{grid}\n{args}")?;
    let buffers = zeros(alloc, sizes)?;
    match read_launch(alloc, text.as_bytes()) {
        Ok(launch) => {
            if buffers.len() != launch.files.len() || row.args.len() > 2 {
                return Err("other buffers".into());
            }
            match judged(alloc, body.as_slice(), &row, &launch, &buffers) {
                Ok(()) => Ok(None),
                Err(BindStop::Fault { number, arg }) => Ok(Some((number, arg))),
                Err(BindStop::NoMemory) => Err("no memory".into()),
            }
        }
        Err(_) => Err("no launch".into()),
    }
}

const BOTH: &str = "arg 0 buffer a\narg 1 buffer b";

#[test]
fn arguments_keep_their_rules(rt: HostRuntime) -> Result<(), Fail> {
    let table: [(&str, &[usize], Verdict); 22] = [
        (BOTH, &[8, 4], None),
        ("arg 1 buffer a\narg 0 buffer b", &[12, 24], None),
        // 11: an argument without a line, or a line past the arguments
        ("", &[], Some((11, Some(0)))),
        ("arg 1 buffer b", &[4], Some((11, Some(0)))),
        ("arg 0 buffer a", &[8], Some((11, Some(1)))),
        ("arg 0 buffer a\narg 5 local 1", &[8], Some((11, Some(1)))),
        (
            "arg 2 local 1\narg 0 buffer a\narg 1 buffer b",
            &[8, 4],
            Some((11, Some(2))),
        ),
        (
            "arg 7 local 1\narg 0 buffer a\narg 3 plain 00\narg 1 buffer b",
            &[8, 4],
            Some((11, Some(3))),
        ),
        (
            "arg 4294967295 local 1\narg 0 buffer a\narg 1 buffer a",
            &[8],
            Some((11, Some(u32::MAX))),
        ),
        // 12: another kind
        ("arg 0 local 8\narg 1 buffer b", &[4], Some((12, Some(0)))),
        (
            "arg 0 buffer a\narg 1 plain 00000000",
            &[8],
            Some((12, Some(1))),
        ),
        ("arg 1 plain 00\narg 0 local 8", &[], Some((12, Some(0)))),
        // 14: not a positive multiple of the element's size
        (BOTH, &[4, 8], Some((14, Some(0)))),
        (BOTH, &[0, 4], Some((14, Some(0)))),
        (BOTH, &[8, 0], Some((14, Some(1)))),
        (BOTH, &[8, 6], Some((14, Some(1)))),
        (BOTH, &[12, 3], Some((14, Some(0)))),
        ("arg 0 buffer a\narg 1 buffer a", &[20], Some((14, Some(0)))),
        // 15: one buffer, and other elements
        ("arg 0 buffer a\narg 1 buffer a", &[16], Some((15, Some(0)))),
        // two rules: the least
        ("arg 0 local 8", &[], Some((11, Some(1)))),
        ("arg 0 buffer a\narg 1 local 4", &[3], Some((12, Some(1)))),
        (
            "arg 9 local 4\narg 0 buffer a\narg 1 local 4",
            &[3],
            Some((11, Some(9))),
        ),
    ];
    for (args, sizes, wanted) in table {
        let found = verdict(rt.alloc(), "global 1\nlocal 1", args, sizes)?;
        assert_eq!(rt; found, wanted, "{args:?}");
    }
    Ok(())
}

#[test]
fn grids_keep_their_rules(rt: HostRuntime) -> Result<(), Fail> {
    let table: [(&str, Verdict); 14] = [
        ("global 6\nlocal 3", None),
        ("global 1024\nlocal 1024", None),
        ("global 16384\nlocal 1", None),
        ("global 32 32 16\nlocal 16 8 8", None),
        // 18: groups that don't fill the grid
        ("global 5\nlocal 2", Some((18, None))),
        ("global 2\nlocal 4", Some((18, None))),
        ("global 4 4\nlocal 2 3", Some((18, None))),
        ("global 4 4 4\nlocal 2 2 3", Some((18, None))),
        // 19: too many items
        ("global 1025\nlocal 1025", Some((19, None))),
        ("global 16 8 9\nlocal 16 8 9", Some((19, None))),
        ("global 16385\nlocal 1", Some((19, None))),
        ("global 32 32 17\nlocal 1 1 1", Some((19, None))),
        (
            "global 4294967295 4294967295 4294967295\nlocal 1 1 1",
            Some((19, None)),
        ),
        // both
        ("global 16385\nlocal 2", Some((18, None))),
    ];
    for (grid, wanted) in table {
        let found = verdict(rt.alloc(), grid, BOTH, &[8, 4])?;
        assert_eq!(rt; found, wanted, "{grid:?}");
    }
    let found = verdict(rt.alloc(), "global 5\nlocal 2", BOTH, &[8, 5])?;
    assert_eq!(rt; found, Some((14, Some(1))));
    Ok(())
}

#[test]
fn binds_by_rows(rt: HostRuntime) -> Result<(), Fail> {
    let row = row(rt.alloc(), b"k", &PAIRS)?;
    let text = b"kernel k\nglobal 1\nlocal 1\narg 1 buffer a\narg 0 buffer b";
    let launch = read_launch(rt.alloc(), text).ok().ok_or("refused")?;
    let bound = bound_rows(rt.alloc(), row.args.as_slice(), launch.args.as_slice())?;
    let wanted = [
        Bound {
            set: 1,
            binding: 0,
            buffer: 1,
        },
        Bound {
            set: 0,
            binding: 1,
            buffer: 0,
        },
    ];
    assert_eq!(rt; bound.as_slice(), wanted.as_slice());
    Ok(())
}
