//! Texts, and what they read as.

use cl_lexer::{MAX_TEXT, Token, TokenKind, lex, one_verdict};
use clv_place::{Offence, Place, Stop, Text};
use std::alloc::{AllocError, Global};
use std::test::Fail;

// A text, and its first offence: a code, a line and a column.
type Refused<'a> = (&'a [u8], u16, u32, u32);

const REFUSED: [Refused<'static>; 56] = [
    // 101: a byte that no token, comment or separator holds
    (b"\"", 101, 1, 1),
    (b"int a = 1 @ 2;", 101, 1, 11),
    (b"\n\n  `", 101, 3, 3),
    (b"a\\\n\\\r\n  $", 101, 3, 3),
    (b"a \\", 101, 1, 3),
    (b"a \\ \n", 101, 1, 3),
    (b"a \\\rb", 101, 1, 3),
    (b"\\\\\n\n", 101, 1, 1),
    (b"/* \" */ \"", 101, 1, 9),
    (b"#define x \"", 101, 1, 11),
    (b"# error\n#\nerror \"", 101, 3, 7),
    (b"a\x0bb", 101, 1, 2),
    (b"caf\xc3\xa9", 101, 1, 4),
    (b"\x00", 101, 1, 1),
    (b"// \xff \" '\n\x7f", 101, 2, 1),
    // 102: a comment is not ended
    (b"/*", 102, 1, 1),
    (b"/*/", 102, 1, 1),
    (b"x /* a\n b * / \" 'c", 102, 1, 3),
    (b"/**/ /\\\n* *\\ /", 102, 1, 6),
    (b"\n\n\t/* *\n/", 102, 3, 2),
    // 103: a malformed number, or one with no type
    (b"08", 103, 1, 1),
    (b"x = 1.5;", 103, 1, 5),
    (b"a\\\n 0b1", 103, 2, 2),
    (b"1_000", 103, 1, 1),
    (b"0x", 103, 1, 1),
    (b"0xu", 103, 1, 1),
    (b"0xg", 103, 1, 1),
    (b"\n 1e5", 103, 2, 2),
    (b"1uu", 103, 1, 1),
    (b"1lul", 103, 1, 1),
    (b"1ll", 103, 1, 1),
    (b"1.x", 103, 1, 1),
    (b"/*\n*/9223372036854775808", 103, 2, 3),
    (b"18446744073709551616u", 103, 1, 1),
    (b"0x10000000000000000", 103, 1, 1),
    (b"02000000000000000000000", 103, 1, 1),
    (b"00000000000000000000018", 103, 1, 1),
    // 104: a malformed character literal
    (b"''", 104, 1, 1),
    (b"#if 0\nit's\n#endif", 104, 2, 3),
    (b"a = 'ab';", 104, 1, 5),
    (b"'\\x123'", 104, 1, 1),
    (b"'\\x'", 104, 1, 1),
    (b"'\\1234'", 104, 1, 1),
    (b"'\\8'", 104, 1, 1),
    (b"'\\q'", 104, 1, 1),
    (b"\r\n\t'\t'", 104, 2, 2),
    (b"'\x7f'", 104, 1, 1),
    (b"'\n'", 104, 1, 1),
    (b"'\xc3\xa9'", 104, 1, 1),
    (b"'''", 104, 1, 1),
    (b"'a", 104, 1, 1),
    (b"\\\n\\\n '\\", 104, 3, 2),
    // the first of several
    (b"\"'' 08 /*", 101, 1, 1),
    (b"a '' 08 \" /*", 104, 1, 3),
    (b"#pragma '' \"\n 08 '' \"", 103, 2, 2),
    (b"1\n/* 08 '' \"", 102, 2, 1),
];

#[test]
fn refuses_at_the_first_offence(rt: HostRuntime) {
    for (text, code, line, col) in REFUSED {
        let place = Place { line, col };
        let stop = lex(rt.alloc(), text).err();
        assert_eq!(rt; stop, Some(Stop::Out(Offence { code, place })), "{text:?}");
    }
}

// So many equal bytes.
fn filled(alloc: Global, byte: u8, length: usize) -> Result<Vec<u8>, AllocError> {
    let mut text = Vec::new(alloc);
    for _ in 0..length {
        text.push(byte)?;
    }
    Ok(text)
}

#[test]
fn keeps_to_the_greatest_length(rt: HostRuntime) -> Result<(), Fail> {
    let place = Place { line: 1, col: 1 };
    for byte in [b' ', b'\n', b'"'] {
        let text = filled(rt.alloc(), byte, MAX_TEXT + 1)?;
        let stop = lex(rt.alloc(), &text).err();
        assert_eq!(rt; stop, Some(Stop::Out(Offence { code: 105, place })));
    }
    let text = filled(rt.alloc(), b'\n', MAX_TEXT)?;
    let tokens = lex(rt.alloc(), &text)?;
    assert!(rt; tokens.list.is_empty());
    let end = Place {
        line: 1_048_577,
        col: 1,
    };
    assert_eq!(rt; tokens.end, end);
    let text = filled(rt.alloc(), b'"', MAX_TEXT)?;
    let stop = lex(rt.alloc(), &text).err();
    assert_eq!(rt; stop, Some(Stop::Out(Offence { code: 101, place })));
    Ok(())
}

// The marks in the order of their bytes.
const MARKS: [&str; 46] = [
    "!", "!=", "#", "%", "%=", "&", "&&", "&=", "(", ")", "*", "*=", "+", "++", "+=", ",", "-",
    "--", "-=", "->", ".", "/", "/=", ":", ";", "<", "<<", "<<=", "<=", "=", "==", ">", ">=", ">>",
    ">>=", "?", "[", "]", "^", "^=", "{", "|", "|=", "||", "}", "~",
];

#[test]
fn marks_have_their_numbers(rt: HostRuntime) -> Result<(), Fail> {
    for (number, mark) in MARKS.iter().enumerate() {
        let tokens = lex(rt.alloc(), mark.as_bytes())?;
        assert_eq!(rt; tokens.list.len(), 1);
        for token in tokens.list.as_slice() {
            match token.kind {
                TokenKind::Mark(n) => assert_eq!(rt; n as usize, number, "{mark}"),
                _ => assert!(rt; false, "{mark}"),
            }
        }
    }
    Ok(())
}

// A token in words: its place, `!` at the first of a line, `_` behind a separator, and what it is.
fn words_of(alloc: Global, token: &Token) -> Result<String, AllocError> {
    let Place { line, col } = token.place;
    let first = if token.first { "!" } else { "" };
    let spaced = if token.spaced { "_" } else { "" };
    let place = format!(in alloc; "{line}:{col}{first}{spaced}")?;
    let place = place.as_str();
    match &token.kind {
        TokenKind::Name(name) => {
            let name = text_of(alloc, name)?;
            format!(in alloc; "{place} {}", name.as_str())
        }
        TokenKind::Number { value, ty } => format!(in alloc; "{place} {value} of type {ty}"),
        TokenKind::Char(value) => format!(in alloc; "{place} char {value}"),
        TokenKind::Mark(number) => {
            let mark = MARKS.get(*number as usize).copied().unwrap_or("no mark");
            format!(in alloc; "{place} {mark}")
        }
        TokenKind::Rest(rest) => {
            let rest = text_of(alloc, rest)?;
            format!(in alloc; "{place} rest[{}]", rest.as_str())
        }
    }
}

// Bytes as characters.
fn text_of(alloc: Global, text: &Text) -> Result<String, AllocError> {
    let mut out = String::new(alloc);
    for byte in text.as_slice() {
        out.push(*byte as char)?;
    }
    Ok(out)
}

#[test]
fn reads_tokens_and_their_places(rt: HostRuntime) -> Result<(), Fail> {
    let table: [(&[u8], &str); 11] = [
        (b"int x;", "1:1! int; 1:5_ x; 1:6 ;; 1:7"),
        (b"", "1:1"),
        (b"\\\n", "2:1"),
        (
            b"ab\\\ncd\\\r\n+\\\n= 1",
            "1:1! abcd; 3:1 +=; 4:3_ 1 of type 0; 4:4",
        ),
        (
            b"a/**/b/* \n */#c//\\\n d\ne",
            "1:1! a; 1:6_ b; 2:4_ #; 2:5 c; 4:1!_ e; 4:2",
        ),
        (b"a\r\n b\x0c\tc\r\n", "1:1! a; 2:2!_ b; 2:5_ c; 3:1"),
        (
            b"/* one\n two */ # if\n/\\\n/ gone \xff\n/\\\n* gone *\\\n/ x",
            "2:9!_ #; 2:11_ if; 7:3!_ x; 7:4",
        ),
        (
            b"#error it's \"bad\" /* \\\n on\xff\n # pragma\nx #error y\n#error",
            "1:1! #; 1:2 error; 1:7 rest[ it's \"bad\" /*  onÿ]; 3:2!_ #; 3:4_ pragma; 3:10 rest[]; 4:1!_ x; 4:3_ #; 4:4 error; 4:10_ y; 5:1!_ #; 5:2 error; 5:7 rest[]; 5:7",
        ),
        (
            b"#pragma\\\n\n# /* */ error/**/!\n#errors -",
            "1:1! #; 1:2 pragma; 2:1 rest[]; 3:1!_ #; 3:9_ error; 3:14 rest[/**/!]; 4:1!_ #; 4:2 errors; 4:9_ -; 4:10",
        ),
        (
            b"a+++b>>=c>>d->e...f##/=",
            "1:1! a; 1:2 ++; 1:4 +; 1:5 b; 1:6 >>=; 1:9 c; 1:10 >>; 1:12 d; 1:13 ->; 1:15 e; 1:16 .; 1:17 .; 1:18 .; 1:19 f; 1:20 #; 1:21 #; 1:22 /=; 1:24",
        ),
        (
            b"'a'\\\n'\\\n\\\n\\x4\\\n1'0x\\\nF\\\nu",
            "1:1! char 97; 2:1 char 65; 5:3 15 of type 1; 7:2",
        ),
    ];
    for (text, wanted) in table {
        let tokens = lex(rt.alloc(), text)?;
        let mut words = String::new(rt.alloc());
        for token in tokens.list.as_slice() {
            let token = words_of(rt.alloc(), token)?;
            words.push_str(token.as_str())?;
            words.push_str("; ")?;
        }
        let Place { line, col } = tokens.end;
        let end = format!(in rt.alloc(); "{line}:{col}")?;
        words.push_str(end.as_str())?;
        assert_eq!(rt; words.as_str(), wanted, "{text:?}");
    }
    Ok(())
}

#[test]
fn numbers_have_the_first_type_that_holds_them(rt: HostRuntime) -> Result<(), Fail> {
    // 0 int, 1 uint, 2 long, 3 ulong
    let table: [(&[u8], u64, u8); 28] = [
        (b"0", 0, 0),
        (b"7", 7, 0),
        (b"2147483647", 2_147_483_647, 0),
        (b"2147483648", 2_147_483_648, 2),
        (b"9223372036854775807", 9_223_372_036_854_775_807, 2),
        (b"017", 15, 0),
        (b"0x7fffffff", 2_147_483_647, 0),
        (b"0x80000000", 2_147_483_648, 1),
        (b"037777777777", 4_294_967_295, 1),
        (b"0XFFFFFFFF", 4_294_967_295, 1),
        (b"0x100000000", 4_294_967_296, 2),
        (b"0x7fffffffffffffff", 9_223_372_036_854_775_807, 2),
        (b"0x8000000000000000", 9_223_372_036_854_775_808, 3),
        (b"01777777777777777777777", 18_446_744_073_709_551_615, 3),
        (b"0u", 0, 1),
        (b"4294967295U", 4_294_967_295, 1),
        (b"4294967296u", 4_294_967_296, 3),
        (b"18446744073709551615u", 18_446_744_073_709_551_615, 3),
        (b"0x1u", 1, 1),
        (b"1l", 1, 2),
        (b"07L", 7, 2),
        (b"0xffl", 255, 2),
        (b"0x8000000000000000L", 9_223_372_036_854_775_808, 3),
        (b"1ul", 1, 3),
        (b"1LU", 1, 3),
        (b"0x1Lu", 1, 3),
        (b"1Ul", 1, 3),
        (b"00000000000000000000000000000000000001", 1, 0),
    ];
    for (text, value, ty) in table {
        let tokens = lex(rt.alloc(), text)?;
        assert_eq!(rt; tokens.list.len(), 1, "{text:?}");
        for token in tokens.list.as_slice() {
            match token.kind {
                TokenKind::Number { value: v, ty: t } => {
                    assert_eq!(rt; (v, t), (value, ty), "{text:?}")
                }
                _ => assert!(rt; false, "{text:?}"),
            }
        }
    }
    Ok(())
}

#[test]
fn characters_have_signed_values(rt: HostRuntime) -> Result<(), Fail> {
    let table: [(&[u8], i32); 26] = [
        (b"'a'", 97),
        (b"' '", 32),
        (b"'~'", 126),
        (b"'\"'", 34),
        (b"'\\n'", 10),
        (b"'\\t'", 9),
        (b"'\\r'", 13),
        (b"'\\a'", 7),
        (b"'\\b'", 8),
        (b"'\\f'", 12),
        (b"'\\v'", 11),
        (b"'\\\\'", 92),
        (b"'\\''", 39),
        (b"'\\\"'", 34),
        (b"'\\?'", 63),
        (b"'\\0'", 0),
        (b"'\\12'", 10),
        (b"'\\177'", 127),
        (b"'\\200'", -128),
        (b"'\\377'", -1),
        (b"'\\777'", -1),
        (b"'\\401'", 1),
        (b"'\\x1'", 1),
        (b"'\\x7f'", 127),
        (b"'\\x80'", -128),
        (b"'\\xfF'", -1),
    ];
    for (text, value) in table {
        let tokens = lex(rt.alloc(), text)?;
        assert_eq!(rt; tokens.list.len(), 1, "{text:?}");
        for token in tokens.list.as_slice() {
            match token.kind {
                TokenKind::Char(v) => assert_eq!(rt; v, value, "{text:?}"),
                _ => assert!(rt; false, "{text:?}"),
            }
        }
    }
    Ok(())
}

#[test]
fn the_law_may_be_called(rt: HostRuntime) {
    one_verdict();
    assert!(rt; lex(rt.alloc(), b"x").is_ok());
}
