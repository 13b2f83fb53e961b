//! Texts, and the verdicts of the typing rules on the units that they are.

use crate::common::verdict;
use cl_tree::{ConstantVar, Function, TStmt, TStmtNode};
use cl_types::Space;
use clv_place::{Offence, Place, Stop};
use std::test::Fail;

// A text, and its first offence: a code, a line and a column.
type Refused<'a> = (&'a [u8], u16, u32, u32);

const REFUSED: [Refused<'static>; 17] = [
    (b"__kernel void k(__global int*a){a[0]=zz;}", 301, 1, 38),
    (
        b"int f(int x,int x){return x;}__kernel void k(__global int*a){}",
        302,
        1,
        17,
    ),
    (
        b"__kernel void k(__global int*a){const int x=1;x=2;}",
        310,
        1,
        48,
    ),
    // what offends in the arms of a condition comes before the condition
    (b"__kernel void k(__global int*a){if(a)zz;}", 301, 1, 38),
    (b"__kernel void k(__global int*a){if(a);}", 318, 1, 33),
    (
        b"__kernel void k(__global int*a){switch(a[0]){case 1:continue;}}",
        319,
        1,
        53,
    ),
    (
        b"__kernel void k(__global int*a){switch(1u){case 0xffffffff:;case -1:;}}",
        320,
        1,
        61,
    ),
    (
        b"__kernel void k(__global int*a){switch(a[0]){case 0:default:case 1:default:;}}",
        321,
        1,
        68,
    ),
    (
        b"__kernel void k(__global int*a){switch(a[0]){case 0:a[0]=1;default:break;case 1:;}}",
        322,
        1,
        60,
    ),
    (
        b"int f(void){return;}__kernel void k(__global int*a){}",
        323,
        1,
        13,
    ),
    (b"__kernel int k(__global int*a){return 1;}", 327, 1, 14),
    (
        b"__kernel __attribute__((reqd_work_group_size(64,32,1)))void k(__global int*a){}",
        328,
        1,
        25,
    ),
    (
        b"int f(int x){return 1;}int f(int x){return 1;}__kernel void k(__global int*a){}",
        332,
        1,
        28,
    ),
    (b"int f(int x){return x;}", 335, 1, 1),
    // a kernel without a body is none
    (b"\n\n__kernel void k(__global int*a);", 335, 1, 1),
    // each other offence comes before the missing kernel
    (b"int f(int x){return zz;}", 301, 1, 21),
    (b"\n__constant int c;\n", 325, 2, 16),
];

#[test]
fn refuses_at_the_first_offence(rt: HostRuntime) {
    for (text, code, line, col) in REFUSED {
        let stop = verdict(rt.alloc(), text).err();
        let wanted = Stop::Out(Offence {
            code,
            place: Place { line, col },
        });
        assert_eq!(rt; stop, Some(wanted), "{text:?}");
    }
}

const UNIT: &[u8] = b"typedef int T;
__constant T c[2] = { 7, 258 };
__kernel __attribute__((reqd_work_group_size(8, 4, 1))) void k(__global T *a);
T f(T x) { return x + c[1]; }
__kernel void k(__global T *a) {
    int y = f(c[0]);
    a[0] = y;
}
";

// Whether a constant is `c`, with its two numbers.
fn is_c(c: &ConstantVar) -> bool {
    c.variable.name.as_slice() == b"c".as_slice()
        && c.variable.space == Space::Constant
        && c.variable.place == Place { line: 2, col: 14 }
        && c.bytes.as_slice() == b"\x07\x00\x00\x00\x02\x01\x00\x00".as_slice()
}

// Whether a function has this name, which is in this line, and so many parameters and variables.
fn is_function(f: &Function, name: &[u8], line: u32, params: usize, vars: usize) -> bool {
    f.name.as_slice() == name
        && f.place.line == line
        && f.params.len() == params
        && f.vars.len() == vars
}

// Whether a body declares the function's first variable, with its first value, and then has one expression.
fn declares_and_writes(body: &TStmt) -> bool {
    let TStmtNode::Block(items) = &body.node else {
        return false;
    };
    let [first, second] = items.as_slice() else {
        return false;
    };
    let declares = match &first.node {
        TStmtNode::Decl { var, init } => *var == 0 && init.is_some(),
        _ => false,
    };
    declares && matches!(&second.node, TStmtNode::Expr(_))
}

#[test]
fn types_a_unit(rt: HostRuntime) -> Result<(), Fail> {
    let tree = verdict(rt.alloc(), UNIT)?;
    let [c] = tree.constants.as_slice() else {
        return Err("not one constant".into());
    };
    assert!(rt; is_c(c));
    let [f, k] = tree.functions.as_slice() else {
        return Err("not two functions".into());
    };
    assert!(rt; is_function(f, b"f", 4, 1, 0));
    assert!(rt; !f.kernel);
    assert_eq!(rt; f.required, None);
    assert!(rt; is_function(k, b"k", 5, 1, 1));
    assert!(rt; k.kernel);
    // the size that the declaration without a body requires
    assert_eq!(rt; k.required, Some([8, 4, 1]));
    assert!(rt; declares_and_writes(&k.body));
    Ok(())
}

// A unit with one constant, and the constant's bytes.
const BYTES: [(&[u8], &[u8]); 7] = [
    (b"__constant int x=258;kernel void k(){}", b"\x02\x01\0\0"),
    (
        b"__constant int x={-2};kernel void k(){}",
        b"\xfe\xff\xff\xff",
    ),
    (
        b"__constant char x[]={1,2,3};kernel void k(){}",
        b"\x01\x02\x03",
    ),
    (
        b"__constant short x[][2]={1,2,3};kernel void k(){}",
        b"\x01\0\x02\0\x03\0\0\0",
    ),
    (
        b"__constant char x[2][2]={{1},2,3};kernel void k(){}",
        b"\x01\0\x02\x03",
    ),
    (
        b"__constant uchar3 x=(uchar3)(7,8,9);kernel void k(){}",
        b"\x07\x08\x09\0",
    ),
    (
        b"struct S{char c;short s;};__constant struct S x={1,2};kernel void k(){}",
        b"\x01\0\x02\0",
    ),
];

#[test]
fn lays_constants_out(rt: HostRuntime) -> Result<(), Fail> {
    for (text, bytes) in BYTES {
        let tree = verdict(rt.alloc(), text)?;
        let [x] = tree.constants.as_slice() else {
            return Err("not one constant".into());
        };
        assert_eq!(rt; x.bytes.as_slice(), bytes, "{text:?}");
    }
    Ok(())
}
