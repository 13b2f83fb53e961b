//! Tokens, and what they are to the grammar.

use cl_ast::expression::Qual;
use cl_grammar::{ExprStop, Lexeme, Terminal, TypeNames, first_over, lexemes, seen};
use cl_lexer::lex;
use cl_types::{BinOp, Space, UnOp};
use clv_place::{List, NoMemory};
use std::alloc::Global;
use std::test::Fail;

// The text of one token, and what that is to the grammar.
const TERMINALS: [(&'static [u8], Terminal); 24] = [
    (b"typedef", Terminal::Typedef),
    (b"kernel", Terminal::Kernel),
    (b"__kernel", Terminal::Kernel),
    (b"__constant", Terminal::Space(Space::Constant)),
    (b"uint", Terminal::UnsignedInt { bits: 32 }),
    (
        b"long4",
        Terminal::Vector {
            bits: 64,
            signed: true,
            n: 4,
        },
    ),
    (b"ptrdiff_t", Terminal::Sized { signed: true }),
    (b"sizeof", Terminal::Sizeof),
    (b"int8", Terminal::Refused),
    (b"half", Terminal::Refused),
    (b"__write_only", Terminal::Refused),
    (b"image2d_t", Terminal::Refused),
    (b"image_t", Terminal::Refused),
    (b"images", Terminal::Name),
    (b"int5", Terminal::Name),
    (b"kernels", Terminal::Name),
    (b"vec_type_hint", Terminal::Name),
    (b"5l", Terminal::Number { value: 5, ty: 2 }),
    (
        b"'\\377'",
        Terminal::Number {
            value: 4294967295,
            ty: 0,
        },
    ),
    (b"(", Terminal::OpenParen),
    (b"->", Terminal::Arrow),
    (b"<<", Terminal::Infix(BinOp::Shl)),
    (b"<<=", Terminal::Compound(BinOp::Shl)),
    (b"#", Terminal::Stray),
];

// What the tokens of a text are to the grammar.
fn read(alloc: Global, text: &[u8]) -> Option<List<Lexeme>> {
    let tokens = lex(alloc, text).ok()?;
    lexemes(alloc, tokens.list.as_slice(), tokens.end).ok()
}

#[test]
fn tokens_are_terminals(rt: HostRuntime) {
    for (text, terminal) in TERMINALS {
        let read = read(rt.alloc(), text).expect(&rt, "tokens");
        assert_eq!(rt; read.len(), 2);
        assert_eq!(rt; read.as_slice()[0].terminal, terminal);
        assert_eq!(rt; read.as_slice()[1].terminal, Terminal::End);
    }
}

#[test]
fn typedefs_name_types(rt: HostRuntime) -> Result<(), Fail> {
    let mut names = TypeNames::new(rt.alloc());
    assert_eq!(rt; names.get(b"T"), None);
    names.add(b"T", true)?;
    names.add(b"S", false)?;
    assert_eq!(rt; names.get(b"T"), Some(true));
    let read = read(rt.alloc(), b"S T U").expect(&rt, "tokens");
    let read = read.as_slice();
    assert_eq!(rt; read.len(), 4);
    assert_eq!(rt;
        seen(&read[0], &names),
        Terminal::TypeName { vector: false }
    );
    assert_eq!(rt; seen(&read[1], &names), Terminal::TypeName { vector: true });
    assert_eq!(rt; seen(&read[2], &names), Terminal::Name);
    Ok(())
}

#[test]
fn terminals_stand_for_parts(rt: HostRuntime) {
    let vector = Terminal::TypeName { vector: true };
    assert_eq!(rt; Terminal::Const.qualifier(), Some(Qual::Const));
    assert_eq!(rt;
        Terminal::Restrict.pointer_qualifier(),
        Some(Qual::Restrict)
    );
    assert_eq!(rt; vector.whole_type(), Some(true));
    assert_eq!(rt; Terminal::Unsigned.sign(), Some(false));
    assert_eq!(rt; Terminal::Short.width(), Some(16));
    assert_eq!(rt; Terminal::Long.takes_int(), true);
    assert_eq!(rt; Terminal::Star.prefix(), Some(UnOp::Deref));
    assert_eq!(rt; Terminal::Increment.increment_before(), Some(UnOp::PreInc));
    assert_eq!(rt; Terminal::Decrement.increment_behind(), Some(UnOp::PostDec));
    assert_eq!(rt; Terminal::Arrow.arrow(), Some(true));
    assert_eq!(rt; Terminal::Star.binary(), Some(BinOp::Mul));
    assert_eq!(rt; Terminal::Equals.assignment(), Some(None));
    assert_eq!(rt; Terminal::Struct.begins_type(), true);
    assert_eq!(rt; ExprStop::from(NoMemory), ExprStop::NoMemory);
}

// Pieces of a text, how often each stands in it, and the index of the first token that is over.
const WEIGHTS: [(&'static [u8], usize, &'static [u8], usize, Option<usize>); 6] = [
    (b"- ", 256, b"", 0, None),
    (b"- ", 257, b"", 0, Some(256)),
    (b"(", 100, b"- ", 157, Some(256)),
    (b"- ;", 500, b"- ", 256, None),
    (b"if{}else ", 64, b"- ", 65, Some(320)),
    (b"( - )", 256, b"-", 1, Some(766)),
];

#[test]
fn weight_has_a_bound(rt: HostRuntime) -> Result<(), Fail> {
    for (first, many, second, more, over) in WEIGHTS {
        let mut text = Vec::new(rt.alloc());
        for _ in 0..many {
            text.extend_from_slice(first)?;
        }
        for _ in 0..more {
            text.extend_from_slice(second)?;
        }
        let read = read(rt.alloc(), &text).expect(&rt, "tokens");
        assert_eq!(rt; first_over(rt.alloc(), read.as_slice()), Ok(over));
    }
    Ok(())
}
