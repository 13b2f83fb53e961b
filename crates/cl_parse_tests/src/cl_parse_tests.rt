//! Texts, and the verdicts on their tokens.

use cl_ast::declaration::{Ast, External, FWord, Param};
use cl_ast::expression::{Base, Expr, ExprNode};
use cl_ast::statement::{Stmt, StmtNode};
use cl_lexer::lex;
use cl_parse::{one_offence, parse};
use clv_place::{Offence, Place, Stop};
use std::alloc::Global;
use std::test::Fail;

// A text, and its first offence: a code, a line and a column.
type Refused<'a> = (&'a [u8], u16, u32, u32);

const REFUSED: [Refused<'static>; 16] = [
    (b"", 201, 1, 1),
    (b" \n", 201, 2, 1),
    (b"int x", 201, 1, 6),
    (b"int x;;", 201, 1, 7),
    (
        b"__kernel void k(__global int*a){\na[0]=zz;\na[1]=2\n}\n",
        201,
        4,
        1,
    ),
    (b"__kernel void k(__global float*a){a[0]=1;}", 203, 1, 26),
    (
        b"__kernel __attribute__((vec_type_hint(float4))) void k(__global int*a){a[0]=1;}",
        203,
        1,
        39,
    ),
    (b"goto", 203, 1, 1),
    (b"__attribute__((foo))void f();", 203, 1, 16),
    (b"__attribute__((int))void f();", 203, 1, 16),
    (b"__attribute__((2))void f();", 201, 1, 16),
    (b"typedef int foo;__attribute__((foo))void f();", 203, 1, 32),
    (b"__attribute__((vec_type_hint))void f();", 201, 1, 29),
    // a typedef's name is the name of a type from its end on
    (b"typedef int T;int f(int T);", 201, 1, 25),
    (b"T f();typedef int T;", 201, 1, 1),
    (b"int f(T a);typedef int T;", 201, 1, 7),
];

// A text, where a piece stands so often between two others, and its first offence, if it has one: a code and a column.
type Heavy<'a> = (&'a [u8], usize, &'a [u8], Option<(u16, u32)>);

const HEAVY: [Heavy<'static>; 6] = [
    (b"int x=", 255, b"1;", None),
    (b"int x=", 256, b"1;", Some((202, 517))),
    // an offence behind the token that is too heavy
    (b"int x=", 300, b")", Some((202, 517))),
    (b"int 1=", 300, b"1;", Some((201, 5))),
    (b"int x=,", 300, b"1;", Some((201, 7))),
    // one token with both
    (b"int x=", 255, b"/1;", Some((201, 517))),
];

fn verdict(alloc: Global, text: &[u8]) -> Result<Ast, Stop> {
    let tokens = lex(alloc, text)?;
    parse(alloc, &tokens)
}

fn out(code: u16, line: u32, col: u32) -> Option<Stop> {
    Some(Stop::Out(Offence {
        code,
        place: Place { line, col },
    }))
}

#[test]
fn refuses_at_the_first_offence(rt: HostRuntime) {
    one_offence();
    for (text, code, line, col) in REFUSED {
        let stop = verdict(rt.alloc(), text).err();
        assert_eq!(rt; stop, out(code, line, col), "{text:?}");
    }
}

#[test]
fn weight_is_an_offence(rt: HostRuntime) -> Result<(), Fail> {
    for (before, many, behind, offence) in HEAVY {
        let mut text = before.to_vec(rt.alloc())?;
        for _ in 0..many {
            text.extend_from_slice(b"- ")?;
        }
        text.extend_from_slice(behind)?;
        let wanted = match offence {
            Some((code, col)) => out(code, 1, col),
            None => None,
        };
        let stop = verdict(rt.alloc(), &text).err();
        assert_eq!(rt; stop, wanted, "{before:?} {many} {behind:?}");
    }
    Ok(())
}

// Whether a parameter is `__global int *a`, with its name in this column.
fn is_parameter(param: &Param, col: u32) -> bool {
    let is_int = match &param.spec.base {
        Base::Int { bits, signed } => *bits == 32 && *signed,
        _ => false,
    };
    let is_a = match &param.name {
        Some(name) => name.as_slice() == b"a".as_slice(),
        None => false,
    };
    is_int && is_a && param.star.is_some() && param.place.col == col
}

// Whether a body is one assignment to an element, with its `=` in this column.
fn assigns(body: &Stmt, col: u32) -> bool {
    match &body.node {
        StmtNode::Block(items) => items.len() == 1 && assigns_element(&items[0], col),
        _ => false,
    }
}

fn assigns_element(statement: &Stmt, col: u32) -> bool {
    match &statement.node {
        StmtNode::Expr(tree) => {
            let is_assignment = match &tree.node {
                ExprNode::Assign(op) => op.is_none(),
                _ => false,
            };
            is_assignment
                && tree.place.col == col
                && tree.args.len() == 2
                && is_index(&tree.args[0])
        }
        _ => false,
    }
}

fn is_index(tree: &Expr) -> bool {
    match &tree.node {
        ExprNode::Index => tree.args.len() == 2,
        _ => false,
    }
}

#[test]
fn reads_a_unit(rt: HostRuntime) -> Result<(), Fail> {
    let text = b"typedef int T;\n__kernel void k(__global int*a){a[0]=1;}";
    let ast = verdict(rt.alloc(), text)?;
    assert_eq!(rt; ast.externals.len(), 2);
    match &ast.externals.as_slice()[0] {
        External::Typedef { spec: _, name } => {
            assert_eq!(rt; name.name.as_slice(), b"T".as_slice());
            assert_eq!(rt; name.place, Place { line: 1, col: 13 });
        }
        _ => assert!(rt; false, "no typedef"),
    }
    match &ast.externals.as_slice()[1] {
        External::Function {
            words,
            spec: _,
            name,
            place,
            params,
            body: Some(body),
        } => {
            assert_eq!(rt; words.len(), 1);
            assert!(rt; matches!(&words[0], FWord::Kernel));
            assert_eq!(rt; name.as_slice(), b"k".as_slice());
            assert_eq!(rt; *place, Place { line: 2, col: 15 });
            assert_eq!(rt; params.len(), 1);
            assert!(rt; is_parameter(&params[0], 30));
            assert_eq!(rt; body.place, Place { line: 2, col: 32 });
            assert!(rt; assigns(body, 37));
        }
        _ => assert!(rt; false, "no function with a body"),
    }
    Ok(())
}

// A text, and how many declarations it has.
type Unit<'a> = (&'a [u8], usize);

const UNITS: [Unit<'static>; 13] = [
    (b"void f(void); int g(int, char *a, const int4 *const);", 2),
    (b"void f(void, int);", 1),
    (
        b"kernel void f(int a, constant int *b) { } void g() { f(); }",
        2,
    ),
    (b"__attribute__((reqd_work_group_size)) void f();", 1),
    (
        b"typedef int vec_type_hint; __attribute__((vec_type_hint(vec_type_hint))) void f();",
        2,
    ),
    (
        b"__attribute__((vec_type_hint(unsigned long int))) void f();",
        1,
    ),
    (b"struct S { int a; }; struct S; int;", 3),
    (
        b"constant int a = 1, *b, c[2] = { 1, 2, }; static int d;",
        2,
    ),
    (b"typedef int4 *T[2]; typedef T U; U f(T, U a);", 3),
    (
        b"__attribute__((vec_type_hint(int4))) __attribute__((vec_type_hint(uchar))) void f();",
        1,
    ),
    (
        b"volatile bool a; __private size_t b; local ptrdiff_t c; intptr_t d; uintptr_t e;",
        5,
    ),
    (
        b"signed char a; unsigned short int b; long int c; signed d; unsigned e; uchar f; ushort g; uint h; ulong i;",
        9,
    ),
    (
        b"void f(global int *restrict a, __local int *volatile b, char3 *__restrict const c);",
        1,
    ),
];

#[test]
fn units_have_their_declarations(rt: HostRuntime) -> Result<(), Fail> {
    for (text, count) in UNITS {
        let ast = verdict(rt.alloc(), text)?;
        assert_eq!(rt; ast.externals.len(), count, "{text:?}");
    }
    Ok(())
}

// A text of one line, and the column of the token at which it is no declaration.
type Stopped<'a> = (&'a [u8], u32);

const STOPPED: [Stopped<'static>; 15] = [
    (b"void f(int) { }", 13),
    (b"void f(int a, int) { }", 20),
    (b"static struct S { int a; };", 27),
    (b"kernel int a;", 13),
    (b"static static int a;", 20),
    (b"kernel static int a;", 20),
    (b"int static a;", 5),
    (b"int kernel f();", 5),
    (b"void f(int a,);", 14),
    (b"void f(a);", 8),
    (b"typedef int;", 12),
    (b"typedef static int T;", 9),
    (b"typedef int a, b;", 14),
    (b"__attribute__((reqd_work_group_size(1)) void f();", 41),
    (
        b"typedef int work_group_size_hint; __attribute__((work_group_size_hint)) void f();",
        50,
    ),
];

#[test]
fn declarations_stop_at_a_token(rt: HostRuntime) {
    for (text, col) in STOPPED {
        let stop = verdict(rt.alloc(), text).err();
        assert_eq!(rt; stop, out(201, 1, col), "{text:?}");
    }
}

// A function, how many words it has, how many arguments the first has if it requires a size, and how many parameters the
// function has.
type Words<'a> = (&'a [u8], usize, Option<usize>, usize);

const WORDS: [Words<'static>; 5] = [
    (b"void f(void);", 0, None, 0),
    (b"kernel void f(void *);", 1, None, 1),
    (b"static inline static void f(int, int a);", 3, None, 2),
    (
        b"__attribute__((reqd_work_group_size(1, 2, 3))) kernel void f();",
        2,
        Some(3),
        0,
    ),
    (
        b"__attribute__((reqd_work_group_size)) __attribute__((work_group_size_hint(1))) void f();",
        2,
        Some(0),
        0,
    ),
];

fn sizes(word: &FWord) -> Option<usize> {
    match word {
        FWord::Required { place: _, args } => Some(args.len()),
        _ => None,
    }
}

#[test]
fn functions_have_their_words(rt: HostRuntime) -> Result<(), Fail> {
    for (text, count, required, parameters) in WORDS {
        let ast = verdict(rt.alloc(), text)?;
        assert_eq!(rt; ast.externals.len(), 1, "{text:?}");
        match &ast.externals.as_slice()[0] {
            External::Function { words, params, .. } => {
                assert_eq!(rt; words.len(), count, "{text:?}");
                let first = match words.first() {
                    Some(word) => sizes(word),
                    None => None,
                };
                assert_eq!(rt; first, required, "{text:?}");
                assert_eq!(rt; params.len(), parameters, "{text:?}");
            }
            _ => assert!(rt; false, "no function"),
        }
    }
    Ok(())
}

// A text, how many declarations it has, how many words, parameters and statements its last function has, and what the
// last statement is, with its place.
type Whole<'a> = (&'a [u8], Told);

type Told = ([usize; 4], &'static str, Place);

const WHOLE: [Whole<'static>; 8] = [
    (
        b"__kernel void add(__global const int *a, __global const int *b, __global int *c, uint n) {\n  uint i = get_global_id(0);\n  if (i < n)\n    c[i] = a[i] + b[i];\n}\n",
        ([1, 1, 4, 2], "if", Place { line: 3, col: 3 }),
    ),
    (
        b"__kernel __attribute__((reqd_work_group_size(64, 1, 1)))\nvoid reduce(__global const uint *in, __global uint *out, __local uint *part) {\n  uint lane = get_local_id(0);\n  part[lane] = in[get_global_id(0)];\n  barrier(CLK_LOCAL_MEM_FENCE);\n  for (uint step = get_local_size(0) / 2; step > 0; step >>= 1) {\n    if (lane < step)\n      part[lane] += part[lane + step];\n    barrier(CLK_LOCAL_MEM_FENCE);\n  }\n  if (lane == 0)\n    atomic_add(out, part[0]);\n}\n",
        ([1, 2, 3, 5], "if", Place { line: 11, col: 3 }),
    ),
    (
        b"typedef struct { int x, y; } point;\nstatic int dot(point a, point b) {\n  return a.x * b.x + a.y * b.y;\n}\nkernel void dots(global const point *p, global int *out) {\n  size_t i = get_global_id(0);\n  point q = p[i];\n  out[i] = dot(q, *(p + i)) + (&q)->x;\n}\n",
        ([3, 1, 2, 3], "expression", Place { line: 8, col: 3 }),
    ),
    (
        b"uint mix(uint h) {\n  h ^= h >> 16;\n  h *= 0x85ebca6bu;\n  return h ^ h >> 13;\n}\n__kernel void hash(__global uint *data, const uint rounds) {\n  uint h = data[get_global_id(0)], n = rounds;\n  do {\n    h = mix(h + n);\n  } while (--n != 0u);\n  data[get_global_id(0)] = h;\n}\n",
        ([2, 1, 2, 3], "expression", Place { line: 11, col: 3 }),
    ),
    (
        b"__kernel void change(__global int *a, int how) {\n  int i = get_global_id(0);\n  switch (how) {\n  case 0: a[i] = -a[i]; break;\n  case 1:\n  case 2: a[i]++; break;\n  default: a[i] = ~a[i] ? a[i] : 1;\n  }\n}\n",
        ([1, 1, 2, 2], "switch", Place { line: 3, col: 3 }),
    ),
    (
        b"__kernel void walk(__global int4 *v, int s) {\n  int4 w = (int4)(s, 2, 3, 4), u = v[0];\n  w.xyz = u.zyx * w.s012;\n  while (any(w > u))\n    w -= (int4)(1);\n  ;\n  v[get_global_id(0)] = convert_int4(w);\n  return;\n}\n",
        ([1, 1, 2, 6], "return", Place { line: 8, col: 3 }),
    ),
    (
        b"constant int taps[3] = { 1, 2, 1 };\nkernel void blur(global const int *restrict in, global int *restrict out, int width) {\n  local int row[66];\n  int at = get_local_id(0) + 1, sum = 0;\n  row[at] = in[get_global_id(0)];\n  barrier(CLK_LOCAL_MEM_FENCE);\n  for (int k = -1; k <= 1; ++k)\n    sum += taps[k + 1] * row[at + k];\n  { out[get_global_id(0)] = sum / 4; }\n}\n",
        ([2, 1, 3, 6], "block", Place { line: 9, col: 3 }),
    ),
    (
        b"__kernel void sort(__global int *a, int n) {\n  for (int i = 0; i < n; i++) {\n    int swapped = 0;\n    for (int j = 0; j + 1 < n - i; j++) {\n      if (a[j] <= a[j + 1]) continue;\n      int t = a[j];\n      a[j] = a[j + 1], a[j + 1] = t;\n      swapped = 1;\n    }\n    if (!swapped) break;\n  }\n}\n",
        ([1, 1, 2, 1], "for", Place { line: 2, col: 3 }),
    ),
];

fn kind(statement: &Stmt) -> &'static str {
    match &statement.node {
        StmtNode::Block(_) => "block",
        StmtNode::Expr(_) => "expression",
        StmtNode::If { .. } => "if",
        StmtNode::For { .. } => "for",
        StmtNode::Switch { .. } => "switch",
        StmtNode::Return(_) => "return",
        _ => "other",
    }
}

fn told(ast: &Ast) -> Option<Told> {
    let list = ast.externals.as_slice();
    match list.last() {
        Some(
            External::Function {
                words,
                params,
                body: Some(body),
                ..
            },
        ) => match &body.node {
            StmtNode::Block(items) => {
                let last = items.last()?;
                let counts = [list.len(), words.len(), params.len(), items.len()];
                Some((counts, kind(last), last.place))
            }
            _ => None,
        },
        _ => None,
    }
}

#[test]
fn reads_whole_kernels(rt: HostRuntime) -> Result<(), Fail> {
    for (text, wanted) in WHOLE {
        let ast = verdict(rt.alloc(), text)?;
        assert_eq!(rt; told(&ast), Some(wanted), "{text:?}");
    }
    Ok(())
}
