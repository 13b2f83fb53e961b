//! Constant expressions with what the rules of C make of them.
//!
//! A tree is written with the operands of a node before it, and parts by commas: of each node the letter of its
//! type, and its operator or the number that it is. A node's column is its index.

use cl_builtins::Gentype;
use cl_constants::{
    constancy, divides, number, number_in, number_to, positive, positive_in, shape,
};
use cl_tree::{Constancy, Shape, TExpr, TNode};
use cl_types::{BinOp, ClType, TypeId, TypeStop, TypeTable, UnOp};
use clv_num::Bits;
use clv_place::{NoMemory, Place};
use std::alloc::Global;
use std::test::Fail;

// The types by their numbers: `char`, `uchar`, and so on to `ulong`, `bool`, `void`, and two `int`s.
const TYPES: [u8; 11] = *b"cCsSiIlLbv2";

const INT: TypeId = TypeId(4);

const BINARY: [(&str, BinOp); 18] = [
    ("*", BinOp::Mul),
    ("/", BinOp::Div),
    ("%", BinOp::Rem),
    ("+", BinOp::Add),
    ("-", BinOp::Sub),
    ("<<", BinOp::Shl),
    (">>", BinOp::Shr),
    ("<", BinOp::Less),
    (">", BinOp::Greater),
    ("<=", BinOp::LessEqual),
    (">=", BinOp::GreaterEqual),
    ("==", BinOp::Equal),
    ("!=", BinOp::NotEqual),
    ("&", BinOp::And),
    ("^", BinOp::Xor),
    ("|", BinOp::Or),
    ("&&", BinOp::LogicalAnd),
    ("||", BinOp::LogicalOr),
];

const UNARY: [(&str, UnOp); 5] = [
    ("plus", UnOp::Plus),
    ("minus", UnOp::Minus),
    ("~", UnOp::Not),
    ("!", UnOp::LogicalNot),
    ("deref", UnOp::Deref),
];

// Trees, and the patterns that they are.
const CASES: &str = "c 100, c 100, c + -> c -56
C 200, C 100, C + -> C 44
c -128, c 1, c - -> c 127
C 3, C 5, C - -> C 254
c 100, c 100, c * -> c 16
c -7, c 2, c / -> c -3
c -128, c -1, c / -> divides 2
c -128, c -1, c % -> c 0
C 128, C 255, C / -> C 0
c 7, c 0, c / -> divides 2
C 7, C 0, C % -> divides 2
c -7, c 2, c % -> c -1
c -128, c 1, c >> -> c -64
C 128, C 1, C >> -> C 64
c 1, c 9, c << -> c 2
c 64, c 1, c << -> c -128
c 1, c -1, c >> -> c 0
c -1, c 0, i < -> i 1
C 255, C 0, i < -> i 0
s -32768, s -1, s / -> divides 2
s -32768, s 32767, i > -> i 0
S 32768, S 32767, i > -> i 1
i 2147483647, i 1, i + -> i -2147483648
i -2147483648, i -1, i / -> divides 2
i -2147483648, i 1, i / -> i -2147483648
i -2147483648, i -1, i % -> i 0
i -2147483648, i 0, i % -> divides 2
i 65536, i 65536, i * -> i 0
i 7, i -2, i % -> i 1
I 2147483648, I 4294967295, I / -> I 0
I 4294967289, I 2, I / -> I 2147483644
i 1, i 33, i << -> i 2
i 1, l 4294967297, i << -> i 2
i -8, i 33, i >> -> i -4
I 4294967288, I 1, I >> -> I 2147483644
i -1, i -1, i <= -> i 1
i -1, i 0, i >= -> i 0
I 4294967295, I 0, i >= -> i 1
i 3, i 3, i == -> i 1
i 3, i 3, i != -> i 0
i 12, i 10, i & -> i 8
i 12, i 10, i ^ -> i 6
i 12, i 10, i | -> i 14
i 2, i 0, i && -> i 0
c 1, l 1099511627776, i && -> i 1
i 0, i 0, i || -> i 0
i 0, i 4, i || -> i 1
l 9223372036854775807, l 1, l + -> l -9223372036854775808
l -9223372036854775808, l -1, l / -> divides 2
l -9223372036854775808, l -1, l % -> l 0
l -9223372036854775808, l 0, i < -> i 1
L 9223372036854775808, L 0, i < -> i 0
L 18446744073709551615, L 3, L * -> L 18446744073709551613
l 1, l 64, l << -> l 1
l -1, l 63, l >> -> l -1
L 18446744073709551615, L 63, L >> -> L 1
i 300, c convert -> c 44
i 256, b convert -> b 1
i -2, l convert -> l -2
I 4294967294, l convert -> l 4294967294
c -1, 2 convert -> i -1, i -1
i 1, v convert -> varies
c -128, c minus -> c -128
S 1, S ~ -> S 65534
l 0, i ! -> i 1
s -1, s plus -> s -1
i 5, i deref -> varies
i 1, i 0, i /, i deref -> varies
i 1, i 0, i /, i minus -> divides 2
i 1, i 2, i 3, i ? -> i 2
l 0, i 2, i 3, i ? -> i 3
i 1, i 2, i 1, i 0, i /, i ? -> divides 4
i 1, i 0, i /, i 1, i 0, i /, i + -> divides 2
i 1, i 0, i /, i 0, i && -> divides 2
i 1, i 0, i /, i name, i + -> varies
i 1, i name, i 2, i ? -> varies
i 7, 2 one -> i 7, i 7
i 1, i 2, 2 two -> i 1, i 2
i 1, i 2, 2 two, 2 one -> i 1, i 2
i 1, i 2, 2 two, 2 convert -> i 1, i 2
i 1, i 0, 2 two, 2 minus -> i -1, i 0
i -1, i 2, 2 two, i 2, i -1, 2 two, 2 < -> i -1, i 0
i 1, i 2, 2 two, i 1, i 3, 2 two, 2 != -> i 0, i -1
i 3, i 4, 2 two, i 5, i 6, 2 two, 2 * -> i 15, i 24
i 3, i 4, 2 two, i 5, i 0, 2 two, 2 / -> divides 6
i name -> varies";

// Trees, the numbers that they are, and those numbers where they are above 0.
const NUMBERS: [(&str, Option<u64>, Option<u64>); 7] = [
    ("i 5", Some(5), Some(5)),
    ("i 0", Some(0), None),
    ("i -1", Some(0xffff_ffff), None),
    ("I -1", Some(0xffff_ffff), Some(0xffff_ffff)),
    ("i 5, b convert", Some(1), Some(1)),
    ("i 7, 2 one", None, None),
    ("i 7, i 0, i %", None, None),
];

fn table(alloc: Global) -> Result<TypeTable, TypeStop> {
    let mut types = TypeTable::new(alloc)?;
    for signed in [true, false] {
        let _ = types.intern(ClType::Int { bits: 8, signed })?;
    }
    for signed in [true, false] {
        let _ = types.intern(ClType::Int { bits: 16, signed })?;
    }
    for signed in [true, false] {
        let _ = types.intern(ClType::Int { bits: 32, signed })?;
    }
    for signed in [true, false] {
        let _ = types.intern(ClType::Int { bits: 64, signed })?;
    }
    let _ = types.intern(ClType::Bool)?;
    let _ = types.intern(ClType::Void)?;
    pair(&mut types)?;
    Ok(types)
}

fn pair(types: &mut TypeTable) -> Result<(), TypeStop> {
    if INT.0 as usize >= types.len() {
        return Err(TypeStop::NoMemory);
    }
    let ClType::Int { .. } = types.get(INT) else {
        return Err(TypeStop::NoMemory);
    };
    let _ = types.intern(ClType::Vector { elem: INT, n: 2 })?;
    Ok(())
}

fn type_of(letter: &str) -> TypeId {
    for i in 0..11u32 {
        if letter.as_bytes() == [TYPES[i as usize]].as_slice() {
            return TypeId(i);
        }
    }
    INT
}

// A number in as many bits as its type has.
fn bits(ty: TypeId, digits: &str) -> Option<Bits> {
    let value = match digits.strip_prefix("-") {
        Some(rest) => rest.parse::<u64>().ok()?.wrapping_neg(),
        None => digits.parse().ok()?,
    };
    Some(match ty.0 {
        0 | 1 | 8 => Bits::new(8, value),
        2 | 3 => Bits::new(16, value),
        6 | 7 => Bits::new(64, value),
        _ => Bits::new(32, value),
    })
}

fn binary(word: &str) -> Option<BinOp> {
    for (mark, op) in BINARY {
        if mark == word {
            return Some(op);
        }
    }
    None
}

fn unary(word: &str) -> Option<UnOp> {
    for (mark, op) in UNARY {
        if mark == word {
            return Some(op);
        }
    }
    None
}

// How many operands a node has.
fn operand_count(word: &str) -> usize {
    if word == "?" {
        3
    } else if word == "two" || binary(word).is_some() {
        2
    } else if word == "one" || word == "convert" || unary(word).is_some() {
        1
    } else {
        0
    }
}

fn node(ty: TypeId, word: &str, args: Vec<TExpr>) -> TNode {
    if let Some(bits) = bits(ty, word) {
        TNode::Number(bits)
    } else if let Some(op) = binary(word) {
        TNode::Binary { op, args }
    } else if let Some(op) = unary(word) {
        TNode::Unary { op, args }
    } else if word == "convert" {
        TNode::Convert(args)
    } else if word == "?" {
        TNode::Cond(args)
    } else if word == "name" {
        TNode::Param(0)
    } else {
        TNode::Vector(args)
    }
}

fn last(alloc: Global, stack: &mut Vec<TExpr>, count: usize) -> Result<Vec<TExpr>, NoMemory> {
    let mut args = Vec::new(alloc);
    for _arg in 0..count {
        if let Some(e) = stack.pop() {
            args.push(e)?;
        }
    }
    args.reverse();
    Ok(args)
}

fn tree(alloc: Global, text: &str) -> Result<Option<TExpr>, NoMemory> {
    let mut stack = Vec::new(alloc);
    let mut col: u32 = 0;
    for part in text.split(", ") {
        let (letter, word) = part.split_once(" ").unwrap_or(("i", "0"));
        let ty = type_of(letter);
        let args = last(alloc, &mut stack, operand_count(word))?;
        stack.push(TExpr {
            ty,
            place: Place { line: 1, col },
            node: node(ty, word, args),
        })?;
        col = col.wrapping_add(1);
    }
    Ok(stack.pop())
}

// Whether a constant is of these patterns.
fn are(ns: &[u64], wanted: &str) -> bool {
    let mut at = 0;
    for part in wanted.split(", ") {
        let (letter, digits) = part.split_once(" ").unwrap_or(("i", "0"));
        let n = bits(type_of(letter), digits).map(|bits| bits.value);
        if ns.get(at).copied() != n {
            return false;
        }
        at = at.wrapping_add(1);
    }
    at == ns.len()
}

fn is_as_wanted(is: &Constancy, wanted: &str) -> bool {
    if let Some(place) = divides(is) {
        let col = wanted.strip_prefix("divides ");
        return col.and_then(|col| col.parse().ok()) == Some(place.col);
    }
    match is {
        Constancy::Is(ns) => are(ns.as_slice(), wanted),
        _ => wanted == "varies",
    }
}

fn comes_to(alloc: Global, text: &str, wanted: &str) -> Result<bool, TypeStop> {
    let types = table(alloc)?;
    match tree(alloc, text)? {
        Some(e) => Ok(is_as_wanted(&constancy(alloc, &types, &e)?, wanted)),
        None => Ok(false),
    }
}

// The number that a tree is, and the same where it is above 0.
fn numbers(alloc: Global, text: &str) -> Result<(Option<u64>, Option<u64>), TypeStop> {
    let types = table(alloc)?;
    match tree(alloc, text)? {
        Some(e) => Ok((number(alloc, &types, &e)?, positive(alloc, &types, &e)?)),
        None => Ok((None, None)),
    }
}

// What an `int`, a `bool` and a type that isn't there are.
fn shapes(alloc: Global) -> Result<[Shape; 3], TypeStop> {
    let types = table(alloc)?;
    Ok([
        shape(&types, INT),
        shape(&types, TypeId(8)),
        shape(&types, TypeId(99)),
    ])
}

#[test]
fn constants_by_the_rules_of_c(rt: HostRuntime) -> Result<(), Fail> {
    for case in CASES.lines() {
        let (text, wanted) = case.split_once(" -> ").ok_or("a case without its arrow")?;
        assert!(rt; comes_to(rt.alloc(), text, wanted)?, "{case}");
    }
    Ok(())
}

#[test]
fn numbers_and_numbers_above_0(rt: HostRuntime) -> Result<(), Fail> {
    for (text, n, above) in NUMBERS {
        let found = numbers(rt.alloc(), text)?;
        assert_eq!(rt; found.0, n, "{text}");
        assert_eq!(rt; found.1, above, "{text}");
    }
    Ok(())
}

#[test]
fn shapes_and_their_numbers(rt: HostRuntime) -> Result<(), Fail> {
    let int = Shape::Integers(Gentype::int());
    assert_eq!(rt; shapes(rt.alloc())?, [int, Shape::Bool, Shape::Void]);
    assert_eq!(rt; number_to(int, Shape::Bool, 256), 1);
    assert_eq!(rt; number_to(Shape::Bool, int, 1), 1);
    assert_eq!(rt; positive_in(int, Some(1 << 31)), None);
    assert_eq!(rt; positive_in(Shape::Bool, Some(1)), Some(1));
    assert_eq!(rt; number_in(int, &Constancy::Varies), None);
    Ok(())
}
