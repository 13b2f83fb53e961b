//! Texts, and what they preprocess to.

use cl_lexer::{Tokens, lex};
use cl_pre::{MAX_RESULT, expand, one_verdict, same_kinds};
use clv_place::{Offence, Place, Stop};
use std::alloc::{AllocError, Global};
use std::test::Fail;

// A text, and its first offence: a code, a line and a column.
type Refused<'a> = (&'a [u8], u16, u32, u32);

const REFUSED: [Refused<'static>; 89] = [
    // 110
    (b"#include <x>", 110, 1, 1),
    (b"a\n  #warning", 110, 2, 3),
    (b"#if 1\n # 1\n#endif", 110, 2, 2),
    (b"#define f(x) #x", 110, 1, 1),
    (b"#define a x ## y", 110, 1, 1),
    (b"#define true #", 110, 1, 1),
    (b"int a;\n\n#(\n", 110, 3, 1),
    (b"#ifx", 110, 1, 1),
    // 111
    (b"#define", 111, 1, 1),
    (b"x\n #define 1", 111, 2, 2),
    (b"#define defined 1", 111, 1, 1),
    (b"#undef", 111, 1, 1),
    (b"#undef defined", 111, 1, 1),
    (b"#ifdef\n#endif", 111, 1, 1),
    (b"\n\n  #ifndef 2\n#endif", 111, 3, 3),
    (b"#define defined(x", 111, 1, 1),
    (b"#define defined( ) x", 111, 1, 1),
    // 112
    (b"#define f(x", 112, 1, 1),
    (b"  #define f(x,x) x", 112, 1, 3),
    (b"a\n#define f(x,) x", 112, 2, 1),
    (b"#define f(,x) x", 112, 1, 1),
    (b"#define f(1) #", 112, 1, 1),
    (b"#define f(x y) x", 112, 1, 1),
    (b"#define f(", 112, 1, 1),
    (b"#define f(x,y,z,x) 1", 112, 1, 1),
    // 113
    (b"#define a 1\n#define a 2", 113, 2, 1),
    (b"#define a 1\n  #define a 1u", 113, 2, 3),
    (b"#define f(x) x\n#define f(y) y", 113, 2, 1),
    (b"#define f(x) x\n#define f (x) x", 113, 2, 1),
    (b"#define true 1", 113, 1, 1),
    (b"#undef INT_MAX\n#define INT_MAX 1", 113, 2, 1),
    (b"#define a b c\n#define a b", 113, 2, 1),
    (b"#define a\n#define a a", 113, 2, 1),
    // 114
    (b"#define f(x) x\nf(1,2)", 114, 2, 1),
    (b"#define f(x,y) x\n int a = f(1);", 114, 2, 10),
    (b"#define f() 1\nf(2)", 114, 2, 1),
    (
        b"#define f(x) x\n#define g(x) x\ng(1 +\n f(2,3))",
        114,
        4,
        2,
    ),
    (b"#define f(x) x\n#define g f(,)\n\n  a g", 114, 4, 5),
    (
        b"#define f(x) 1\n#if f()\n#if f(,)\n#endif\n#endif",
        114,
        3,
        5,
    ),
    (b"#define f(x) 1\n#define g(x) 2\nf(g())+g(1,2)", 114, 3, 8),
    // 115
    (b"#define f(x) x\nf(1", 115, 2, 1),
    (b"#define f(x) x\n f(1,\n#undef f\n)", 115, 2, 2),
    (b"#define f(x) x\n#define g f\n a g(((1)", 115, 3, 4),
    (b"#define f(x) x\n#define g(x) f(x\ng(1)", 115, 3, 1),
    (b"#define f(x) x\n#if f(1\n)\n#endif", 115, 2, 5),
    (b"#define f(x) x\nf(f(1)", 115, 2, 1),
    // 116
    (b"#endif", 116, 1, 1),
    (b"a\n  #else", 116, 2, 3),
    (b"#elif 1", 116, 1, 1),
    (b"#if 1\n#else\n#else\n#endif", 116, 3, 1),
    (b"#if 0\n#else\n #elif 1\n#endif", 116, 3, 2),
    (b"#if 0\n#if 1\n#else\n  #else\n#endif\n#endif", 116, 4, 3),
    (b"#if 1\n#endif\n#endif", 116, 3, 1),
    // 117
    (b"#if 1", 117, 1, 1),
    (b"a\n #if 0\n#if 1\n#endif", 117, 2, 2),
    (b"#if 1\n#error", 117, 1, 1),
    (b"#if 0\n#else\n", 117, 1, 1),
    (b"#if (\n", 117, 1, 1),
    (b"  #ifdef x\n#endif\n #ifndef y\n#else\n#elif", 117, 3, 2),
    (
        b"#if 1\n#endif\na\n #if 1\n#endif\n#if 2\n#include",
        117,
        6,
        1,
    ),
    // 118
    (b"#error", 118, 1, 1),
    (b"a\n  #error it's \"no", 118, 2, 3),
    (b"#if 1\n#error\n#endif", 118, 2, 1),
    (b"#ifdef x\n#error\n#else\n  #error\n#endif", 118, 4, 3),
    // 119
    (b"#if\n#endif", 119, 1, 1),
    (b"#if 1 +\n#endif", 119, 1, 1),
    (b"a\n  #if (1\n#endif", 119, 2, 3),
    (b"#if defined\n#endif", 119, 1, 1),
    (b"#if defined(x\n#endif", 119, 1, 1),
    (b"#if 1, 2\n#endif", 119, 1, 1),
    (b"#if 0\n#elif x = 1\n#endif", 119, 2, 1),
    (b"#define d defined\n#if d d\n#endif", 119, 2, 1),
    (b"#if 1 ? 2\n#endif", 119, 1, 1),
    (b"#if sizeof(int)\n#endif", 119, 1, 1),
    // 120
    (b"#if 1/0\n#endif", 120, 1, 1),
    (b"\n  #if 1 % (2-2)\n#endif", 120, 2, 3),
    (
        b"#if 0\n#elif 1 || 1 && 1\n#endif\n#if 0 || 1/x\n#endif",
        120,
        4,
        1,
    ),
    (b"#if 1 ? 1/0 : 1\n#endif", 120, 1, 1),
    // 122
    (b"#ifndef x (\n#endif", 122, 1, 1),
    (b"#if 1\n#endif x", 122, 2, 1),
    (b"#undef x y", 122, 1, 1),
    (b"a\n  #ifdef x y\n#endif", 122, 2, 3),
    (b"#if 1\n#else x\n#endif", 122, 2, 1),
    (b"#if 0\n#if 1\n#endif x\n#else y\n#endif", 122, 4, 1),
    // the first of several
    (b"#error\n#define\n#endif", 118, 1, 1),
    (b"a\n#define f(x) x\nf(\n#error", 115, 3, 1),
    (b"#if 0\n#error\n#foo\n#elif 1\n#foo\n#endif", 110, 5, 1),
    (b"#if 1\n#elif (\n#endif x", 122, 3, 1),
    (b"#define f(x) x\n#if f(1,2) +\n#endif", 114, 2, 5),
];

fn expanded(alloc: Global, text: &[u8]) -> Result<Tokens, Stop> {
    let tokens = lex(alloc, text)?;
    expand(alloc, &tokens)
}

#[test]
fn refuses_at_the_first_offence(rt: HostRuntime) {
    for (text, code, line, col) in REFUSED {
        let place = Place { line, col };
        let stop = expanded(rt.alloc(), text).err();
        assert_eq!(rt; stop, Some(Stop::Out(Offence { code, place })), "{text:?}");
    }
}

// A text, and another of the tokens that it preprocesses to.
const EXPANDED: [(&[u8], &[u8]); 15] = [
    (b"#if 0\n#error no\n#endif", b""),
    (b"#define f(x) f(x)+1\nf(2)", b"f(2)+1"),
    (
        b"#define x 3\n#define f(a) f(x * (a))\n#undef x\n#define x 2\n#define g f\n#define z z[0]\n#define h g(~\n#define m(a) a(w)\n#define w 0,1\n#define t(a) a\nf(y+1) + f(f(z)) % t(t(g)(0) + t)(1);\ng(x+(3,4)-w) | h 5) & m\n(f)^m(m);",
        b"f(2 * (y+1)) + f(2 * (f(2 * (z[0])))) % f(2 * (0)) + t(1);\nf(2 * (2+(3,4)-0,1)) | f(2 * (~ 5)) & f(2 * (0,1))^m(0,1);",
    ),
    (b"#define f(a) a*g\n#define g(a) f(a)\nf(2)(9)", b"2*9*g"),
    (
        b"#define str(s) s\n#define xstr(s) str(s)\n#define q(x, y) x + y\nxstr(q(1, 2)) q(,) q((a,b),c)",
        b"1 + 2 + (a,b) + c",
    ),
    (b"#define e\n#define a b/**/c\na e a", b"b c b c"),
    (b"#define f() 1\nf() f( ) f f\n()", b"1 1 f 1"),
    (b"#define f(x) x\nf\n#undef f\n(1)", b"f(1)"),
    (b"#define a a b\n#define b b a\na b", b"a b a b a b"),
    (
        b"INT_MIN CHAR_MIN ULONG_MAX true CL_VERSION_1_1",
        b"(-2147483647 - 1) (-127 - 1) 0xffffffffffffffffUL 1 110",
    ),
    (
        b"#if defined x || defined(CHAR_BIT) && !defined y\n1\n#else\n2\n#endif\n#ifdef z\n3\n#elif 1 - 1\n4\n#elif 2 / 2 * 3\n5\n#elif (\n6\n#else\n7\n#endif",
        b"1 5",
    ),
    (
        b"#if 0\n#if (\n#elif (\n#else x\n#endif y\n#ifdef\n#endif\n#define a 1\na\n#else\na\n#endif",
        b"a",
    ),
    (
        b"#pragma x y\n#\n# // z\n#define a 16\n#define a 0x10\n#undef b\na",
        b"16",
    ),
    (
        b"#define f(x) x\nf(#) f( # define\n) # a\n",
        b"# # define # a",
    ),
    (
        b"#define x y\n#if x == y && -1 < 0 && -1 > 0u && 2147483648 > -1 && 0x80000000 < -1 && 'a' == 97\nok\n#endif",
        b"ok",
    ),
];

#[test]
fn expands_macros_and_obeys_directives(rt: HostRuntime) -> Result<(), Fail> {
    for (text, wanted) in EXPANDED {
        let found = expanded(rt.alloc(), text)?;
        let wanted = lex(rt.alloc(), wanted)?;
        let same = same_kinds(found.list.as_slice(), wanted.list.as_slice());
        assert!(rt; same, "{text:?}");
    }
    Ok(())
}

#[test]
fn keeps_places_and_marks_of_lines(rt: HostRuntime) -> Result<(), Fail> {
    let text = b"#define g(x) x b\n#define h g\n a h(1\n c)/**/d\n";
    // place, whether it begins a line, and whether it is spaced: of a, 1, c, b and d
    let wanted = [
        (3, 2, true, true),
        (3, 4, false, false),
        (3, 4, true, true),
        (3, 4, false, true),
        (4, 8, false, true),
    ];
    let found = expanded(rt.alloc(), text)?;
    assert_eq!(rt; found.list.len(), wanted.len());
    for at in 0..5 {
        let Some(token) = found.list.get(at) else {
            return Err(Fail::new("too few"));
        };
        let (line, col, first, spaced) = wanted[at];
        assert_eq!(rt; token.place, Place { line, col }, "{at}");
        assert_eq!(rt; (token.first, token.spaced), (first, spaced), "{at}");
    }
    assert_eq!(rt; found.end, Place { line: 5, col: 1 });
    one_verdict();
    Ok(())
}

// So many macros, each of which stands for the next so many times, and before the last text.
fn chain(alloc: Global, length: usize, times: usize, last: &str) -> Result<String, AllocError> {
    let mut text = String::new(alloc);
    for i in 0..length {
        text.push_str(format!(in alloc; "#define d{}", i)?.as_str())?;
        for _ in 0..times {
            text.push_str(format!(in alloc; " d{}", i + 1)?.as_str())?;
        }
        text.push_str("\n")?;
    }
    text.push_str(last)?;
    Ok(text)
}

// A macro that stands for its argument 512 times, and a line behind it.
fn wide(alloc: Global, last: &str) -> Result<String, AllocError> {
    let mut text = "#define f(a)".to_string(alloc)?;
    for _ in 0..512 {
        text.push_str(" a")?;
    }
    text.push_str("\n")?;
    text.push_str(last)?;
    Ok(text)
}

// A refusal at a place.
fn found(code: u16, line: u32, col: u32) -> Option<Stop> {
    let place = Place { line, col };
    Some(Stop::Out(Offence { code, place }))
}

// So many macros, each of which stands for the next so many times, a text behind them, and its first offence.
type Chained<'a> = (usize, usize, &'a str, u16, u32, u32);

const CHAINED: [Chained<'static>; 7] = [
    // the last token has 65 names hidden from it
    (65, 1, " d0", 123, 66, 2),
    (65, 1, "d1 +\n   1 + d0 x", 123, 67, 8),
    (64, 1, "d0 +\n#define e (d0)\n f e", 123, 67, 4),
    // 256 tokens in a condition, which is malformed, and more of them
    (8, 2, "#define d8 -\n#if d0\n#endif", 119, 10, 1),
    (8, 2, "#define d8 -\n  #if d0 1\n#endif", 121, 10, 3),
    (8, 2, "a\n #if 1\n#if d0/0\n#endif\n#endif", 121, 11, 1),
    (8, 2, "#if 0\n#elif (d0\n#endif", 121, 10, 1),
];

// A text behind a macro that stands for its argument 512 times, and the place of the token that is one too many.
type Widened<'a> = (&'a str, u32, u32);

const WIDENED: [Widened<'static>; 3] = [
    ("f(f(1)) x", 2, 9),
    ("  x\n + f(f(1))", 3, 4),
    ("#define g f(f(1)) x\n y;\n  (g", 4, 4),
];

#[test]
fn keeps_to_the_limits(rt: HostRuntime) -> Result<(), Fail> {
    for (length, times, last, code, line, col) in CHAINED {
        let text = chain(rt.alloc(), length, times, last)?;
        let stop = expanded(rt.alloc(), text.as_bytes()).err();
        assert_eq!(rt; stop, found(code, line, col), "{last:?}");
    }
    for (last, line, col) in WIDENED {
        let text = wide(rt.alloc(), last)?;
        let stop = expanded(rt.alloc(), text.as_bytes()).err();
        assert_eq!(rt; stop, found(124, line, col), "{last:?}");
    }
    // 64 names are hidden from the last token
    let text = chain(rt.alloc(), 64, 1, " d0")?;
    assert_eq!(rt; expanded(rt.alloc(), text.as_bytes())?.list.len(), 1);
    // the most tokens: 512 times 512
    let text = wide(rt.alloc(), "f(f(1))")?;
    assert_eq!(rt;
        expanded(rt.alloc(), text.as_bytes())?.list.len(),
        MAX_RESULT
    );
    Ok(())
}
