//! Files as words, in both orders of bytes: what is refused, where, and what comes back.

use spv_binary::reading::read;
use spv_binary::stop::ReadStop;
use spv_binary::writing::write;
use spv_module::Operand::{Id, Str};
use std::alloc::Global;
use std::test::Fail;

// The words of a good header: generator 9 and bound 5.
const HEADER: [u32; 5] = [0x0723_0203, 0x0001_0300, 9, 5, 0];

// Whether the highest byte of each word stands first.
const ORDERS: [bool; 2] = [false, true];

/// Adds words to bytes.
fn put(bytes: &mut Vec<u8>, words: &[u32], high_first: bool) -> Result<(), Fail> {
    for word in words {
        let four = if high_first {
            word.to_be_bytes()
        } else {
            word.to_le_bytes()
        };
        bytes.extend_from_slice(&four)?;
    }
    Ok(())
}

/// The bytes of words.
fn bytes_of(alloc: Global, words: &[u32], high_first: bool) -> Result<Vec<u8>, Fail> {
    let mut bytes = Vec::new(alloc);
    put(&mut bytes, words, high_first)?;
    Ok(bytes)
}

/// The bytes of a header and of instructions behind it.
fn file_of(
    alloc: Global,
    header: &[u32],
    body: &[&[u32]],
    high_first: bool,
) -> Result<Vec<u8>, Fail> {
    let mut bytes = bytes_of(alloc, header, high_first)?;
    for words in body {
        put(&mut bytes, words, high_first)?;
    }
    Ok(bytes)
}

// ---- what is read, and written again

// The module of generator 9 and bound 5 with `OpString` of the id 4 and the text `main`, in both
// orders of bytes.
const SAMPLES: [&[u8]; 2] = [
    b"\x03\x02\x23\x07\0\x03\x01\0\x09\0\0\0\x05\0\0\0\0\0\0\0\
        \x07\0\x04\0\x04\0\0\0main\0\0\0\0",
    b"\x07\x23\x02\x03\0\x01\x03\0\0\0\0\x09\0\0\0\x05\0\0\0\0\
        \0\x04\0\x07\0\0\0\x04niam\0\0\0\0",
];

#[test]
fn reads_both_orders_of_bytes(rt: HostRuntime) -> Result<(), Fail> {
    for bytes in SAMPLES {
        let module = read(rt.alloc(), bytes).ok().ok_or("refused")?;
        assert_eq!(rt; module.version, 0x0001_0300);
        assert_eq!(rt; module.generator, 9);
        assert_eq!(rt; module.bound, 5);
        let [inst] = module.body.as_slice() else {
            return Err("not one instruction".into());
        };
        assert_eq!(rt; inst.op, 7);
        let [Id(4), Str(text)] = inst.operands.as_slice() else {
            return Err("other operands".into());
        };
        assert_eq!(rt; text.as_slice(), b"main".as_slice());
    }
    Ok(())
}

// The same again.
const STRING: [&[u32]; 1] = [&[0x0004_0007, 4, 0x6e69_616d, 0]];

// A kernel that does nothing, with a constant of 64 bits, as another assembler gives it.
const KERNEL: [&[u32]; 14] = [
    &[0x0002_0011, 1],
    &[0x0003_000e, 0, 1],
    &[0x0006_000f, 5, 4, 0x6e69_616d, 0, 2],
    &[0x0006_0010, 4, 17, 8, 1, 1],
    &[0x0004_0005, 4, 0x7274_6e65, 121],
    &[0x0004_0047, 2, 11, 28],
    &[0x0002_0013, 1],
    &[0x0004_0015, 3, 64, 0],
    &[0x0005_002b, 3, 5, 2, 1],
    &[0x0003_0021, 7, 1],
    &[0x0005_0036, 1, 4, 0, 7],
    &[0x0002_00f8, 6],
    &[0x0001_00fd],
    &[0x0001_0038],
];

// Operands of every kind and number, as another assembler gives them: strings of none to many bytes,
// one of them not of ASCII; ids, literals and pairs without end; decorations with a literal and
// without.
const ALL: [&[u32]; 49] = [
    &[0x0002_0011, 1],
    &[0x0002_0011, 11],
    &[
        0x0008_000a,
        0x5f56_5053,
        0x5f52_484b,
        0x5f6e_6f6e,
        0x616d_6573,
        0x6369_746e,
        0x666e_695f,
        111,
    ],
    &[
        0x000a_000b,
        1,
        0x536e_6f4e,
        0x6e61_6d65,
        0x2e63_6974,
        0x7073_6c43,
        0x6665_5276,
        0x7463_656c,
        0x2e6e_6f69,
        49,
    ],
    &[0x0003_000e, 0, 1],
    &[0x0006_000f, 5, 2, 0x6e72_656b, 27749, 3],
    &[0x0006_0010, 2, 17, 8, 1, 1],
    &[0x0003_0007, 4, 0],
    &[0x0003_0007, 5, 0x0063_6261],
    &[0x0004_0007, 6, 0xb6c3_7267, 0x0065_9fc3],
    &[0x0004_0005, 2, 0x6e69_616d, 0],
    &[0x0005_0006, 7, 1, 0x657a_6973, 0],
    &[0x0004_0047, 3, 11, 28],
    &[0x0004_0047, 8, 1, 7],
    &[0x0005_0048, 7, 0, 35, 0],
    &[0x0005_0048, 7, 1, 35, 8],
    &[0x0003_0047, 7, 2],
    &[0x0002_0013, 9],
    &[0x0002_0014, 10],
    &[0x0004_0015, 11, 32, 0],
    &[0x0004_0015, 12, 64, 0],
    &[0x0004_0017, 13, 11, 3],
    &[0x0004_001e, 7, 12, 11],
    &[0x0003_0021, 14, 9],
    &[0x0004_0020, 15, 1, 13],
    &[0x0004_002b, 11, 16, 0],
    &[0x0005_002b, 12, 17, 0x9abc_def0, 0x1234_5678],
    &[0x0004_0032, 11, 8, 64],
    &[0x0003_002e, 13, 18],
    &[0x0006_002c, 13, 19, 16, 16, 8],
    &[0x0003_0029, 10, 20],
    &[0x0004_003b, 15, 3, 1],
    &[0x0005_0036, 9, 2, 0, 14],
    &[0x0002_00f8, 21],
    &[0x0004_003d, 13, 22, 3],
    &[0x0008_004f, 13, 23, 22, 19, 5, 4, 0],
    &[0x0005_0051, 11, 24, 23, 0],
    &[0x0007_000c, 9, 25, 1, 1, 2, 4],
    &[0x0003_00f7, 26, 0],
    &[0x0007_00fb, 24, 27, 1, 28, 0xffff_ffff, 29],
    &[0x0002_00f8, 28],
    &[0x0002_00f9, 26],
    &[0x0002_00f8, 29],
    &[0x0002_00f9, 26],
    &[0x0002_00f8, 27],
    &[0x0004_00fa, 20, 26, 28],
    &[0x0002_00f8, 26],
    &[0x0001_00fd],
    &[0x0001_0038],
];

// A header, and instructions.
type Spelled = ([u32; 5], &'static [&'static [u32]]);

// The second has no instruction, and the largest bound.
const SPELLED: [Spelled; 4] = [
    (HEADER, &STRING),
    ([0x0723_0203, 0x0001_0300, 0xffff_ffff, 4_194_303, 0], &[]),
    ([0x0723_0203, 0x0001_0300, 0x0007_0000, 8, 0], &KERNEL),
    ([0x0723_0203, 0x0001_0300, 0x0007_0000, 30, 0], &ALL),
];

#[test]
fn writes_again_what_it_read(rt: HostRuntime) -> Result<(), Fail> {
    for (header, body) in SPELLED {
        let low_first = file_of(rt.alloc(), &header, body, false)?;
        for high_first in ORDERS {
            let bytes = file_of(rt.alloc(), &header, body, high_first)?;
            let module = read(rt.alloc(), bytes.as_slice()).ok().ok_or("refused")?;
            assert_eq!(rt; module.body.len(), body.len());
            let written = write(rt.alloc(), &module)?;
            assert_eq!(rt; written.as_slice(), low_first.as_slice());
        }
    }
    Ok(())
}

// ---- what is refused

// Words, one to three bytes behind them, the rule that they break, and the word where they do.
type Refused = (&'static [u32], &'static [u8], u8, u32);

const FILES: [Refused; 29] = [
    // the length: none, less than a word, less than a header, and words that aren't whole
    (&[], b"", 1, 0),
    (&[], b"\x03\x02\x23", 1, 0),
    (&[0x0723_0203], b"", 1, 1),
    (&[0x0723_0203, 0x0001_0300, 9, 5], b"\0\0\0", 1, 4),
    (&[0x0723_0203, 0x0001_0300, 9, 5], b"", 1, 4),
    (&[0x0723_0203, 0x0001_0300, 9, 5, 0], b"\x07", 1, 5),
    (
        &[0x0723_0203, 0x0001_0300, 9, 5, 0, 0x0001_0038],
        b"\0\0",
        1,
        6,
    ),
    // another magic number, alone and before other faults
    (&[0x0723_0200, 0x0001_0300, 9, 5, 0], b"", 2, 0),
    (&[0], b"", 2, 0),
    (&[0x0203_0723, 0x0001_0300, 9, 5, 0], b"", 2, 0),
    (&[0x0723_0204, 0, 0, 0, 1, 7], b"\0", 2, 0),
    // versions 1.0, 1.4 and 1.5, none, and one in a file that is too short
    (&[0x0723_0203, 0x0001_0000, 9, 5, 0], b"", 3, 1),
    (&[0x0723_0203, 0x0001_0400, 9, 5, 0], b"", 3, 1),
    (&[0x0723_0203, 0x0001_0500, 9, 5, 0], b"", 3, 1),
    (&[0x0723_0203, 0, 9, 5, 0], b"", 3, 1),
    (&[0x0723_0203, 0x0103_0000, 9], b"\0", 3, 1),
    // a schema
    (&[0x0723_0203, 0x0001_0300, 9, 5, 1], b"", 4, 4),
    (&[0x0723_0203, 0x0001_0300, 9, 5, 0xffff_ffff], b"", 4, 4),
    (
        &[0x0723_0203, 0x0001_0300, 9, 5, 0x0100_0000, 0x0001_0038],
        b"",
        4,
        4,
    ),
    // an instruction that ends in the ragged last word
    (
        &[0x0723_0203, 0x0001_0300, 9, 5, 0, 0x0003_0007, 4],
        b"\0\0\0",
        5,
        5,
    ),
    (
        &[0x0723_0203, 0x0001_0300, 9, 5, 0, 0x0002_0011],
        b"\x01",
        5,
        5,
    ),
    // a fault of an instruction before the ragged end, and behind a good one
    (
        &[0x0723_0203, 0x0001_0300, 9, 5, 0, 0x0001_0081],
        b"\0",
        6,
        5,
    ),
    (
        &[0x0723_0203, 0x0001_0300, 9, 5, 0, 0x0001_0038, 0x0001_0003],
        b"\0",
        6,
        6,
    ),
    // the bounds 0, 4,194,304 and the largest, also in a file that is too short
    (&[0x0723_0203, 0x0001_0300, 9, 0, 0], b"", 9, 3),
    (&[0x0723_0203, 0x0001_0300, 9, 0x0040_0000, 0], b"", 9, 3),
    (
        &[0x0723_0203, 0x0001_0300, 9, 0xffff_ffff, 0, 0x0001_0038],
        b"",
        9,
        3,
    ),
    (&[0x0723_0203, 0x0001_0300, 9, 0], b"\0", 9, 3),
    // the bound is before the schema, the version before the bound
    (&[0x0723_0203, 0x0001_0300, 9, 0, 1], b"", 9, 3),
    (&[0x0723_0203, 0x0001_0301, 9, 0, 1], b"", 3, 1),
];

#[test]
fn refuses_files(rt: HostRuntime) -> Result<(), Fail> {
    for (words, end, number, word) in FILES {
        for high_first in ORDERS {
            let mut bytes = bytes_of(rt.alloc(), words, high_first)?;
            bytes.extend_from_slice(end)?;
            let stop = read(rt.alloc(), bytes.as_slice()).err();
            assert_eq!(rt;
                stop,
                Some(ReadStop::Fault { number, word }),
                "{words:?} {high_first}"
            );
        }
    }
    Ok(())
}

// The magic number with the highest byte first, and the other words with the lowest.
#[test]
fn refuses_mixed_orders(rt: HostRuntime) -> Result<(), Fail> {
    let mut bytes = bytes_of(rt.alloc(), &HEADER[..1], true)?;
    put(&mut bytes, &HEADER[1..], false)?;
    let stop = read(rt.alloc(), bytes.as_slice()).err();
    assert_eq!(rt; stop, Some(ReadStop::Fault { number: 3, word: 1 }));
    Ok(())
}

// Behind the good header: the rule that they break, and the word where they do.
type Broken = (&'static [u32], u8, u32);

const BODIES: [Broken; 69] = [
    // no words; more than there are, by one and by many; of a second instruction
    (&[7], 5, 5),
    (&[56], 5, 5),
    (&[0x0003_0007, 4], 5, 5),
    (&[0x0002_0013], 5, 5),
    (&[0xffff_0007, 4, 0], 5, 5),
    (&[0x0001_0038, 56], 5, 6),
    (&[0x0001_0038, 0x0002_00f8], 5, 6),
    // unknown opcodes: the largest, OpNop, OpLine, OpFAdd, OpPhi; one behind a good instruction
    (&[0x0001_ffff], 6, 5),
    (&[0x0001_0000], 6, 5),
    (&[0x0004_0008, 1, 2, 3], 6, 5),
    (&[0x0005_0081, 1, 2, 3, 4], 6, 5),
    (&[0x0003_00f5, 0, 9], 6, 5),
    (&[0x0001_0038, 0x0001_0101], 6, 6),
    (&[0x0001_0002], 6, 5),
    // OpMemoryModel: too few operands, too many, an unknown addressing and an unknown memory model
    (&[0x0002_000e, 0], 7, 5),
    (&[0x0004_000e, 0, 1, 0], 7, 5),
    (&[0x0003_000e, 1, 1], 7, 6),
    (&[0x0003_000e, 0, 255], 7, 7),
    // OpConstant: no literal, and three of them
    (&[0x0003_002b, 1, 2], 7, 5),
    (&[0x0006_002b, 1, 2, 0, 0, 0], 7, 5),
    // OpFunctionEnd with an operand; OpIAdd with one value; OpString with no word for its string
    (&[0x0002_0038, 0], 7, 5),
    (&[0x0004_0080, 1, 2, 3], 7, 5),
    (&[0x0002_0007, 4], 7, 5),
    // OpSwitch with half a pair; OpMemberName with no word for its string
    (&[0x0004_00fb, 1, 2, 0], 7, 5),
    (&[0x0003_0006, 1, 0], 7, 5),
    // decorations: BuiltIn without its number, Block with one, Offset of a member with two and with none
    (&[0x0003_0047, 1, 11], 7, 5),
    (&[0x0004_0047, 1, 2, 0], 7, 5),
    (&[0x0006_0048, 1, 0, 35, 0, 0], 7, 5),
    (&[0x0004_0048, 1, 0, 35], 7, 5),
    // unknown numbers: decorations with any literals and with none, a built-in, a capability, an
    // execution model, a mode, two storage classes
    (&[0x0006_0047, 1, 5, 1, 2, 3], 7, 7),
    (&[0x0004_0048, 1, 0, 7], 7, 8),
    (&[0x0004_0047, 1, 11, 0], 7, 8),
    (&[0x0002_0011, 2], 7, 6),
    (&[0x0005_000f, 6, 1, 0x6e69_616d, 0], 7, 6),
    (&[0x0006_0010, 1, 0, 1, 1, 1], 7, 7),
    (&[0x0004_0020, 1, 2, 1], 7, 7),
    (&[0x0004_003b, 1, 2, 6], 7, 8),
    // controls other than none
    (&[0x0005_0036, 1, 2, 1, 3], 7, 8),
    (&[0x0004_00f6, 1, 2, 1], 7, 8),
    (&[0x0003_00f7, 1, 2], 7, 7),
    // strings: no end; no UTF-8; other bytes behind the end
    (&[0x0003_0007, 4, 0x6e69_616d], 8, 7),
    (&[0x0004_0007, 4, 0x6e69_616d, 0x6e69_616d], 8, 7),
    (&[0x0003_0007, 4, 0xff], 8, 7),
    (&[0x0003_0007, 4, 0x0062_0061], 8, 7),
    (&[0x0003_0007, 4, 0x0100_0000], 8, 7),
    // half a character, one in too many bytes, a surrogate, and one behind the last
    (&[0x0003_0007, 4, 0xc361], 8, 7),
    (&[0x0003_0007, 4, 0x80c0], 8, 7),
    (&[0x0003_0007, 4, 0x0080_a0ed], 8, 7),
    (&[0x0004_0007, 4, 0x8080_90f4, 0], 8, 7),
    // behind an id, and behind a literal
    (&[0x0003_0005, 1, 0x80], 8, 7),
    (&[0x0004_0006, 1, 0, 0x6200_0061], 8, 8),
    (&[0x0005_000f, 5, 1, 0x6e69_616d, 0x6e69_616d], 8, 8),
    // the ids 0, the bound and beyond: a result, a type, an operand, the last of many, one of a pair
    (&[0x0003_0007, 0, 0x61], 9, 6),
    (&[0x0003_0007, 5, 0x61], 9, 6),
    (&[0x0003_0001, 5, 4], 9, 6),
    (&[0x0003_0001, 4, 6], 9, 7),
    (&[0x0003_003e, 1, 0], 9, 7),
    (&[0x0006_001e, 1, 2, 3, 4, 5], 9, 10),
    (&[0x0005_00fb, 1, 2, 9, 0], 9, 9),
    (&[0x0002_00f8, 0xffff_ffff], 9, 6),
    // behind a string
    (&[0x0007_000f, 5, 1, 0x6e69_616d, 0, 4, 0], 9, 11),
    // the first of two faults in an instruction: by the word
    (&[0x0003_0007, 5, 0xffff_ffff], 9, 6),
    (&[0x0003_0047, 0, 5], 9, 6),
    (&[0x0005_0036, 1, 2, 1, 0], 7, 8),
    (&[0x0004_0047, 5, 11, 0], 9, 6),
    // and of two instructions
    (&[0x0003_000e, 0, 1, 0xffff], 5, 8),
    (&[0x0002_00f8, 0, 0], 9, 6),
    // of two at one word the lesser number: a count of 0 and an unknown opcode; that and too few words
    (&[0xffff], 5, 5),
    (&[0x0001_0081], 6, 5),
];

#[test]
fn refuses_bodies(rt: HostRuntime) -> Result<(), Fail> {
    for (body, number, word) in BODIES {
        for high_first in ORDERS {
            let mut bytes = bytes_of(rt.alloc(), &HEADER, high_first)?;
            put(&mut bytes, body, high_first)?;
            let stop = read(rt.alloc(), bytes.as_slice()).err();
            assert_eq!(rt;
                stop,
                Some(ReadStop::Fault { number, word }),
                "{body:?} {high_first}"
            );
        }
    }
    Ok(())
}
