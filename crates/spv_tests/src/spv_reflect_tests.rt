//! Modules, and what they read as.

ghost use Rattle.std.specs.Prelude.{◌≡◌, ◌+◌, ◌<◌, ◌^◌, length, true, IfOk, IfSome};
ghost use Rattle.std.specs.List.{flat_map};
ghost use Rattle.spv_reflect.specs.Writing.{rows_among};
ghost use Rattle.spv_module.specs.Words.{body_words, module_words, operand_words};

use clv_place::{List, NoMemory, Text};
use spv_module::module::VERSION;
use spv_module::{Inst, Module, Operand, op};
use spv_reflect::reading::read_rows;
use spv_reflect::rows::{ArgKindRow, ArgRow, KernelRow, Reflection};
use spv_reflect::stop::ReflectStop;
use spv_reflect::writing::build;
use std::alloc::Global;
use std::test::Fail;

// An operand: an id, a literal word or a string.
enum Part {
    I(u32),
    W(u32),
    S(&'static [u8]),
}

use Part::{I, S, W};

// An instruction, and a reflection line of the id, the set, the number and the operands.
type Written = (u16, &'static [Part]);

type Line = (u32, u32, u32, &'static [u32]);

// 78 words with the header. 4 is the set of reflection, 5 to 7 are strings, 8 to 10 the numbers 0, 1 and 2, 11
// and 16 functions, 13 a constant of 16 bits, 14 a specialisation constant, and 15 another set.
const BASE: [Written; 18] = [
    (
        op::EXT_INST_IMPORT,
        &[I(4), S(b"NonSemantic.ClspvReflection.1")],
    ),
    (op::EXT_INST_IMPORT, &[I(15), S(b"NonSemantic.DebugPrintf")]),
    (op::STRING, &[I(5), S(b"k")]),
    (op::STRING, &[I(6), S(b"a")]),
    (op::STRING, &[I(7), S(b"beta")]),
    (op::TYPE_VOID, &[I(1)]),
    (op::TYPE_FUNCTION, &[I(2), I(1)]),
    (op::TYPE_INT, &[I(3), W(32), W(0)]),
    (op::TYPE_INT, &[I(12), W(16), W(0)]),
    (op::CONSTANT, &[I(3), I(8), W(0)]),
    (op::CONSTANT, &[I(3), I(9), W(1)]),
    (op::CONSTANT, &[I(3), I(10), W(2)]),
    (op::CONSTANT, &[I(12), I(13), W(1)]),
    (op::SPEC_CONSTANT, &[I(3), I(14), W(1)]),
    (op::FUNCTION, &[I(1), I(11), W(0), I(2)]),
    (op::FUNCTION_END, &[]),
    (op::FUNCTION, &[I(1), I(16), W(0), I(2)]),
    (op::FUNCTION_END, &[]),
];

fn inst(alloc: Global, op: u16, parts: &[Part]) -> Result<Inst, NoMemory> {
    let mut operands = List::new(alloc);
    for part in parts {
        operands.push(match part {
            I(id) => Operand::Id(*id),
            W(word) => Operand::Word(*word),
            S(text) => Operand::Str(Text::from_bytes(alloc, text)?),
        })?;
    }
    Ok(Inst { op, operands })
}

fn line_inst(alloc: Global, line: &Line) -> Result<Inst, NoMemory> {
    let (id, set, number, ids) = line;
    let mut operands = List::new(alloc);
    operands.push(Operand::Id(1))?;
    operands.push(Operand::Id(*id))?;
    operands.push(Operand::Id(*set))?;
    operands.push(Operand::Word(*number))?;
    for id in *ids {
        operands.push(Operand::Id(*id))?;
    }
    Ok(Inst {
        op: op::EXT_INST,
        operands,
    })
}

// A module of the base with reflection lines behind it.
fn module_of(alloc: Global, lines: &[Line]) -> Result<Module, NoMemory> {
    let mut body = List::new(alloc);
    for (op, parts) in &BASE {
        body.push(inst(alloc, *op, parts)?)?;
    }
    for line in lines {
        body.push(line_inst(alloc, line)?)?;
    }
    Ok(Module {
        version: VERSION,
        generator: 0,
        bound: 64,
        body,
    })
}

#[tactic(auto, using(spv_reflect::proofs::Sizes::string_lengths))]
fn operand_len(operand: &Operand) -> usize
    ensures { result ≡ length (operand_words operand.now) }
{
    match operand {
        Operand::Id(_) => 1,
        Operand::Word(_) => 1,
        Operand::Str(text) => text.len() / 4 + 1,
    }
}

// What is left of so many words behind some operands.
fn behind_operands(words: usize, operands: &[Operand]) -> Option<usize>
    ensures { IfSome result (λ left. length (flat_map operand_words operands.now) + left ≡ words) }
{
    let mut left = words;
    let mut rest = operands;
    while let [operand, others @ ..] = rest {
        left = left.checked_sub(operand_len(operand))?;
        rest = others;
    }
    Some(left)
}

// What is left of so many words behind some instructions.
fn behind_insts(words: usize, insts: &[Inst]) -> Option<usize>
    ensures { IfSome result (λ left. length (body_words insts.now) + left ≡ words) }
{
    let mut left = words;
    let mut rest = insts;
    while let [inst, others @ ..] = rest {
        left = behind_operands(left.checked_sub(1)?, inst.operands.as_slice())?;
        rest = others;
    }
    Some(left)
}

fn read(rt: HostRuntime, lines: &[Line]) -> Result<Result<Reflection, ReflectStop>, Fail> {
    let module = module_of(rt.alloc(), lines)?;
    let Some(_left) = behind_insts(10_000, module.body.as_slice()) else {
        return Err("too long".into());
    };
    Ok(read_rows(rt.alloc(), &module))
}

// Two kernels with their lines mixed, names behind the arguments, and a line of another set.
const MIXED: [Line; 11] = [
    (20, 4, 12, &[8, 9, 10]),
    (21, 4, 3, &[31, 8, 8, 9, 25]),
    (22, 4, 1, &[16, 7]),
    (23, 4, 3, &[22, 8, 10, 8, 24]),
    (24, 4, 2, &[7]),
    (25, 4, 2, &[6]),
    (26, 15, 77, &[5, 8]),
    (27, 4, 3, &[31, 9, 8, 10, 24]),
    (31, 4, 1, &[11, 5]),
    (28, 4, 3, &[22, 9, 9, 9, 25]),
    (29, 4, 3, &[31, 10, 9, 8, 24]),
];

#[test]
fn reads_the_rows(rt: HostRuntime) -> Result<(), Fail> {
    let rows = read(rt, &MIXED)?.ok().ok_or("refused")?;
    assert_eq!(rt; rows.sizes, Some([0, 1, 2]));
    assert_eq!(rt; rows.dim, None);
    assert!(rt; rows.constants.is_none());
    let [first, second] = rows.kernels.as_slice() else {
        return Err("not two kernels".into());
    };
    assert_eq!(rt; (first.function, second.function), (16, 11));
    assert_eq!(rt; first.name.as_slice(), b"beta".as_slice());
    assert_eq!(rt; second.name.as_slice(), b"k".as_slice());
    assert_eq!(rt; (first.required, second.required), (None, None));
    let [a, b] = first.args.as_slice() else {
        return Err("not two arguments".into());
    };
    assert_eq!(rt; a.name.as_slice(), b"beta".as_slice());
    assert_eq!(rt; a.kind, ArgKindRow::Buffer { set: 2, binding: 0 });
    assert_eq!(rt; b.name.as_slice(), b"a".as_slice());
    assert_eq!(rt; b.kind, ArgKindRow::Buffer { set: 1, binding: 1 });
    let [a, b, c] = second.args.as_slice() else {
        return Err("not three arguments".into());
    };
    assert_eq!(rt; a.name.as_slice(), b"a".as_slice());
    assert_eq!(rt; a.kind, ArgKindRow::Buffer { set: 0, binding: 1 });
    assert_eq!(rt; b.name.as_slice(), b"beta".as_slice());
    assert_eq!(rt; b.kind, ArgKindRow::Buffer { set: 0, binding: 2 });
    assert_eq!(rt; c.kind, ArgKindRow::Buffer { set: 1, binding: 0 });
    Ok(())
}

#[test]
fn reads_a_module_without_lines(rt: HostRuntime) -> Result<(), Fail> {
    let rows = read(rt, &[])?.ok().ok_or("refused")?;
    assert!(rt; rows.kernels.is_empty());
    assert_eq!(rt; rows.sizes, None);
    Ok(())
}

// Lines, the rule that one breaks, and the index of its first word. The first line has 78, and a line takes
// five words and one for each operand.
type Refused = (&'static [Line], u8, u32);

const REFUSED: [Refused; 33] = [
    // other numbers
    (&[(20, 4, 0, &[])], 1, 78),
    (&[(20, 4, 4, &[21, 8, 8, 8, 22])], 1, 78),
    (&[(20, 4, 15, &[8, 8])], 1, 78),
    (&[(20, 4, 1, &[11, 5]), (21, 4, 13, &[])], 1, 85),
    // a kernel whose function is none, or whose name is no string; too few and too many operands
    (&[(20, 4, 1, &[5, 5])], 2, 78),
    (&[(20, 4, 1, &[11, 8])], 2, 78),
    (&[(20, 4, 1, &[11])], 2, 78),
    (&[(20, 4, 1, &[11, 5, 8])], 2, 78),
    (&[(20, 4, 1, &[63, 5])], 2, 78),
    // a name that is no string; too few and too many operands
    (&[(20, 4, 2, &[11])], 2, 78),
    (&[(20, 4, 2, &[])], 2, 78),
    (&[(20, 4, 2, &[5, 5])], 2, 78),
    // an argument of no kernel: of a function, of a name and of nothing
    (&[(20, 4, 2, &[5]), (21, 4, 3, &[11, 8, 8, 8, 20])], 2, 84),
    (&[(20, 4, 2, &[5]), (21, 4, 3, &[20, 8, 8, 8, 20])], 2, 84),
    (&[(20, 4, 2, &[5]), (21, 4, 3, &[63, 8, 8, 8, 20])], 2, 84),
    // an argument with no name: with a string, a kernel, and a line of another set
    (
        &[(20, 4, 1, &[11, 5]), (21, 4, 3, &[20, 8, 8, 8, 5])],
        2,
        85,
    ),
    (
        &[(20, 4, 1, &[11, 5]), (21, 4, 3, &[20, 8, 8, 8, 20])],
        2,
        85,
    ),
    (
        &[
            (20, 4, 1, &[11, 5]),
            (22, 15, 2, &[5]),
            (21, 4, 3, &[20, 8, 8, 8, 22]),
        ],
        2,
        91,
    ),
    // an ordinal of 16 bits, a set that may be specialised, a binding that is a string
    (
        &[
            (20, 4, 1, &[11, 5]),
            (21, 4, 2, &[5]),
            (22, 4, 3, &[20, 13, 8, 8, 21]),
        ],
        2,
        91,
    ),
    (
        &[
            (20, 4, 1, &[11, 5]),
            (21, 4, 2, &[5]),
            (22, 4, 3, &[20, 8, 14, 8, 21]),
        ],
        2,
        91,
    ),
    (
        &[
            (20, 4, 1, &[11, 5]),
            (21, 4, 2, &[5]),
            (22, 4, 3, &[20, 8, 8, 5, 21]),
        ],
        2,
        91,
    ),
    // too few and too many operands of an argument
    (
        &[
            (20, 4, 1, &[11, 5]),
            (21, 4, 2, &[5]),
            (22, 4, 3, &[20, 8, 8, 21]),
        ],
        2,
        91,
    ),
    (
        &[
            (20, 4, 1, &[11, 5]),
            (21, 4, 2, &[5]),
            (22, 4, 3, &[20, 8, 8, 8, 21, 21]),
        ],
        2,
        91,
    ),
    // sizes
    (&[(20, 4, 12, &[8, 9])], 2, 78),
    (&[(20, 4, 12, &[8, 9, 10, 10])], 2, 78),
    (&[(20, 4, 12, &[8, 9, 14])], 2, 78),
    // ordinals: the first is 1; 0 comes twice; 1 is left out; another kernel's are counted
    (
        &[
            (20, 4, 1, &[11, 5]),
            (21, 4, 2, &[5]),
            (22, 4, 3, &[20, 9, 8, 8, 21]),
        ],
        4,
        91,
    ),
    (
        &[
            (20, 4, 1, &[11, 5]),
            (21, 4, 2, &[5]),
            (22, 4, 3, &[20, 8, 8, 8, 21]),
            (23, 4, 3, &[20, 8, 8, 9, 21]),
        ],
        4,
        101,
    ),
    (
        &[
            (20, 4, 1, &[11, 5]),
            (21, 4, 2, &[5]),
            (22, 4, 3, &[20, 8, 8, 8, 21]),
            (23, 4, 3, &[20, 10, 8, 9, 21]),
        ],
        4,
        101,
    ),
    (
        &[
            (20, 4, 1, &[11, 5]),
            (30, 4, 1, &[16, 7]),
            (21, 4, 2, &[5]),
            (22, 4, 3, &[20, 8, 8, 8, 21]),
            (23, 4, 3, &[30, 9, 8, 8, 21]),
        ],
        4,
        108,
    ),
    // the least rule before the first line, and of one rule the first line
    (&[(20, 4, 1, &[11]), (21, 4, 9, &[])], 1, 84),
    (
        &[
            (20, 4, 1, &[11, 5]),
            (21, 4, 2, &[5]),
            (22, 4, 3, &[20, 9, 8, 8, 21]),
            (23, 4, 12, &[8]),
        ],
        2,
        101,
    ),
    (&[(20, 4, 12, &[8]), (21, 4, 12, &[9])], 2, 78),
];

#[test]
fn refuses_lines(rt: HostRuntime) -> Result<(), Fail> {
    for (lines, number, word) in REFUSED {
        let stop = read(rt, lines)?.err();
        assert_eq!(rt;
            stop,
            Some(ReflectStop::Fault { number, word }),
            "{number} at {word}"
        );
    }
    Ok(())
}

// ---- writing

fn arg(alloc: Global, name: &[u8], set: u32, binding: u32) -> Result<ArgRow, NoMemory> {
    let name = Text::from_bytes(alloc, name)?;
    let kind = ArgKindRow::Buffer { set, binding };
    Ok(ArgRow { name, kind })
}

// A kernel with two arguments, one without, and sizes.
fn written_rows(alloc: Global) -> Result<Reflection, NoMemory>
    ensures { IfOk result (λ r. rows_among r ≡ 5) }
{
    let args = vec![in alloc; arg(alloc, b"in", 0, 1)?, arg(alloc, b"out", 2, 0)?]?;
    let first = KernelRow {
        function: 16,
        name: Text::from_bytes(alloc, b"copy")?,
        args: List::from_vec(args),
        required: None,
    };
    let second = KernelRow {
        function: 11,
        name: Text::from_bytes(alloc, b"k")?,
        args: List::new(alloc),
        required: None,
    };
    Ok(Reflection {
        kernels: List::from_vec(vec![in alloc; first, second]?),
        sizes: Some([7, 8, 9]),
        dim: None,
        constants: None,
    })
}

// The opcodes of what is written behind a module of the base: four strings behind its three, nine numbers
// behind its last constant, and seven lines at the end. The void type and the type of numbers are there.
#[test]
fn writes_rows(rt: HostRuntime) -> Result<(), Fail> {
    let alloc = rt.alloc();
    let module = module_of(alloc, &[])?;
    let rows = written_rows(alloc)?;
    let (body, bound) = build(alloc, module.body.as_slice(), 64, &rows)?;
    assert_eq!(rt; bound, 84);
    assert_eq!(rt; body.len(), 38);
    let codes = [
        (1, op::EXT_INST_IMPORT),
        (2, op::STRING),
        (5, op::STRING),
        (8, op::STRING),
        (9, op::TYPE_VOID),
        (17, op::SPEC_CONSTANT),
        (18, op::CONSTANT),
        (26, op::CONSTANT),
        (27, op::FUNCTION),
        (30, op::FUNCTION_END),
        (31, op::EXT_INST),
        (37, op::EXT_INST),
    ];
    for (at, code) in codes {
        let inst = body.get(at).ok_or("too few")?;
        assert_eq!(rt; inst.op, code, "at {at}");
    }
    Ok(())
}
