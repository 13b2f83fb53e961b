//! Texts, and the kernels that they are or their first offences.

use cl_lexer::MAX_TEXT;
use clv_engine::form::{MAX_TERMS, Term};
use clv_engine::front::first_form;
use clv_place::{Offence, Place, Stop};
use std::alloc::{AllocError, Global};
use std::test::Fail;

// A kernel whose sum is a number of zeros, and then blanks.
fn zeros(alloc: Global, terms: usize, blanks: usize) -> Result<Vec<u8>, AllocError> {
    let mut text = Vec::new(alloc);
    text.extend_from_slice(b"__kernel void k(__global uint*a){a[get_global_id(0)]=0")?;
    for _ in 1..terms {
        text.extend_from_slice(b"+0")?;
    }
    text.extend_from_slice(b";}")?;
    for _ in 0..blanks {
        text.push(b' ')?;
    }
    Ok(text)
}

pub fn refused(code: u16, line: u32, col: u32) -> Option<Stop> {
    Some(Stop::Out(Offence {
        code,
        place: Place { line, col },
    }))
}

#[test]
fn reads_kernels(rt: HostRuntime) -> Result<(), Fail> {
    let one: &[Term] = &[Term::GlobalId];
    let two: &[Term] = &[Term::Literal(2147483647), Term::GlobalId];
    let three: &[Term] = &[Term::GlobalId, Term::Literal(0), Term::Literal(10)];
    let table: [(&[u8], u8, u8, &[Term]); 8] = [
        (
            b"__kernel void k(__global uint *a){a[get_global_id(0)]=get_global_id(0);}",
            b'k',
            b'a',
            one,
        ),
        (
            b"__kernel void k(__global uint*a){a[get_global_id(0)]=2147483647+get_global_id(0);}",
            b'k',
            b'a',
            two,
        ),
        (
            b"\n __kernel\nvoid  z ( __global\n\nuint * b ) { b [ get_global_id ( 0 ) ] = get_global_id ( 0 ) + 0 + 10 ; } \n",
            b'z',
            b'b',
            three,
        ),
        // tabs, comments, joined lines, and other spellings of the numbers
        (
            b"__kernel\tvoid/**/a(__global uint*z)\r\n{z[get_global_id(0x0)]=get_global_\\\nid\n(00)+0+012;} // end\n",
            b'a',
            b'z',
            three,
        ),
        (
            b"__kernel void v(__global uint*u){u[get_global_id(0)]=0x7FFFFFFF/* + */+\tget_global_id(0);}",
            b'v',
            b'u',
            two,
        ),
        // macros and groups that are left out
        (
            b"#define ID get_global_id(0)\n#define SUM(x, y) x + y\n__kernel void k(__global uint *a) {\n\ta[ID] = SUM(ID, 0) + 10;\n}\n",
            b'k',
            b'a',
            three,
        ),
        (
            b"#if 0\nno unit\n#endif\n__kernel void k(__global uint*a){a[get_global_id(0)]=get_global_id(0);}",
            b'k',
            b'a',
            one,
        ),
        (
            b"#define k m\n#define a(x) n\n__kernel void k(__global uint*a(1)){a()[get_global_id(0)]=get_global_id(0);}",
            b'm',
            b'n',
            one,
        ),
    ];
    for (text, name, argument, terms) in table {
        let kernel = first_form(rt.alloc(), text)?;
        assert_eq!(rt; kernel.name, name);
        assert_eq!(rt; kernel.argument, argument);
        assert_eq!(rt; kernel.terms.as_slice(), terms);
    }
    Ok(())
}

#[test]
fn refuses_texts_at_their_first_offence(rt: HostRuntime) {
    let table: [(&[u8], u16, u32, u32); 25] = [
        (b"/* open", 102, 1, 1),
        (
            b"__kernel void k(__global uint*a){a[get_global_id(0)]=1 @;}",
            101,
            1,
            56,
        ),
        (
            b"__kernel void k(__global uint*a){a[get_global_id(0)]=18446744073709551616;}",
            103,
            1,
            54,
        ),
        (
            b"__kernel void k(__global uint*a){a[get_global_id(0)]=1;}\n#error no\n",
            118,
            2,
            1,
        ),
        (
            b"#define F(x) x\n__kernel void k(__global uint*a){a[get_global_id(0)]=F(1,2);}",
            114,
            2,
            54,
        ),
        (b"", 201, 1, 1),
        (b" \n", 201, 2, 1),
        (b"int x", 201, 1, 6),
        (
            b"__kernel void k(__global uint*a){a[get_global_id(0)]=0}",
            201,
            1,
            55,
        ),
        (
            b"__kernel void k(__global uint*a){a[get_global_id(0)]=0;",
            201,
            1,
            56,
        ),
        (
            b"__kernel void k(__global uint*a){a[get_global_id(0)]=0;};",
            201,
            1,
            57,
        ),
        (
            b"__kernel void k(__global uint*a){a[get_global_id(0)]=;}",
            201,
            1,
            54,
        ),
        (
            b"__kernel void k(__global uint*a){a[get_global_id(0)]=0+;}",
            201,
            1,
            56,
        ),
        (
            b"__kernel void k(__global uint*a){a[get_global_id(0)]=0 0;}",
            201,
            1,
            56,
        ),
        (
            b"__kernel voidk(__global uint*a){a[get_global_id(0)]=0;}",
            201,
            1,
            10,
        ),
        (
            b"__kernel void k(__global int*a){\na[0]=zz;\na[1]=2\n}\n",
            201,
            4,
            1,
        ),
        (b"__kernel void k(__global float*a){a[0]=1;}", 203, 1, 26),
        (
            b"__kernel __attribute__((vec_type_hint(float4))) void k(__global int*a){a[0]=1;}",
            203,
            1,
            39,
        ),
        // tokens of a macro stand at its name
        (b"#define p ( ;\n int f p", 201, 2, 8),
        (b"#define real float\n\n  real x;", 203, 3, 3),
        (
            b"#define a - - - -\n#define b a a a a\n#define c b b b b\n#define d c c c c\nint x=d 1;",
            202,
            5,
            7,
        ),
        (
            b"#define a - - - -\n#define b a a a a\n#define c b b b b\n#define d c c c c\nint x=1;\n int y[2]={1,d 1};",
            202,
            6,
            14,
        ),
        (
            b"#define a - - - -\n#define b a a a a\n#define c b b b b\n#define d c c c c\nint x=c 1;\nint y={((c b b b 1+c c c 1))};",
            202,
            6,
            24,
        ),
        // an offence of the expansion comes before one of the grammar, wherever it stands
        (b"int x\n#error no\n", 118, 2, 1),
        // and one of the lexer before both
        (b"int x\n#error no\n@", 101, 3, 1),
    ];
    for (text, code, line, col) in table {
        assert_eq!(rt;
            first_form(rt.alloc(), text).err(),
            refused(code, line, col)
        );
    }
}

#[test]
fn refuses_units_of_another_form(rt: HostRuntime) {
    let table: [&[u8]; 14] = [
        b"__kernel void k(__global uint*a){a[get_global_id(0)]=1u;}",
        b"__kernel void k(__global uint*a){a[get_global_id(0)]=2147483648;}",
        b"__kernel void k(__global uint*a){a[get_global_id(0)]=0x80000000;}",
        b"__kernel void k(__global uint*a){a[get_global_id(0)]=4294967296;}",
        b"__kernel void k(__global uint*a){a[get_global_id(0)]='a';}",
        b"__kernel void k(__global uint*a){a[get_global_id(0)]=+0;}",
        b"__kernel void k(__global uint*a){a[get_global_id(0)]=(0);}",
        b"__kernel void k(__global uint*a){a[get_global_id(0)]=get_global_id(1);}",
        b"__kernel void k(__global uint*a){a[get_global_id(1)]=0;}",
        b"__kernel void a(__global uint*a){a[get_global_id(0)]=0;}",
        b"__kernel void K(__global uint*a){a[get_global_id(0)]=0;}",
        b"__kernel void kk(__global uint*a){a[get_global_id(0)]=0;}",
        b"kernel void k(__global uint*a){a[get_global_id(0)]=0;}",
        b"__kernel __attribute__((vec_type_hint(int4))) void k(__global uint*a){a[get_global_id(0)]=0;}",
    ];
    for text in table {
        assert_eq!(rt; first_form(rt.alloc(), text).err(), refused(900, 1, 1));
    }
}

#[test]
fn keeps_to_the_limits(rt: HostRuntime) -> Result<(), Fail> {
    let most = zeros(rt.alloc(), MAX_TERMS, 0)?;
    assert_eq!(rt; first_form(rt.alloc(), &most)?.terms.len(), MAX_TERMS);
    let more = zeros(rt.alloc(), MAX_TERMS + 1, 0)?;
    assert_eq!(rt; first_form(rt.alloc(), &more).err(), refused(900, 1, 1));
    let long = zeros(rt.alloc(), 1, MAX_TEXT - 56)?;
    assert_eq!(rt; long.len(), MAX_TEXT);
    assert_eq!(rt; first_form(rt.alloc(), &long)?.terms.len(), 1);
    let longer = zeros(rt.alloc(), 1, MAX_TEXT - 55)?;
    assert_eq!(rt; first_form(rt.alloc(), &longer).err(), refused(105, 1, 1));
    Ok(())
}
