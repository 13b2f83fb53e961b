//! Words and declared names, row by row.

use cl_ast::expression::{Base, Qual};
use cl_builtins::Gentype;
use cl_rules::{Qualified, Target, Want};
use cl_tree::Shape;
use cl_types::{Member, Space, TypeId};
use cl_words::{
    Length, Sketch, has_member, is_open, is_sized, length_from, named_type, plain, qualify,
    restrict_behind, some_wrong, word_shape,
};
use clv_place::{List, NoMemory, Text};
use std::alloc::Global;
use std::test::Fail;

// Qualifiers of a type: c const, v volatile, r restrict, and the letter of an address space; `-` none. What they say of
// int, behind i: c where it is const, the address space, and `!` where they name two.
const QUALIFIERS: &str = "i <- -
ic <- c
ic <- cvc
i <- vr
ig <- g
ick <- kc
il <- ll
ig! <- gk";

// Declared names: a type (v void, b bool, i int, t a struct, a an array, p a pointer), its qualifiers, `*` with its
// qualifiers, and lengths: n a number, o none, w a wrong one. What is declared: the code of a rule that it breaks as a
// member, or 0; behind it a array, v void, b bool, p pointer; and what of it is told by its words, as above.
const SKETCHES: &str = "0 <- i - - -
0c <- i c - -
0a <- i - - nn
0a <- a - - -
0a <- a - - n
0 <- t - - -
303v <- v - - -
303b <- b - - -
303p <- p - - -
303p <- i gc * -
303pc <- i - *c -
303p! <- i gk * -
303a <- v - - n
303a <- i - * n
304a <- i - - nw
326g <- i g - -
0a <- i - - on";

fn int() -> Gentype {
    Gentype {
        bits: 32,
        signed: true,
        count: 1,
    }
}

fn shape(letter: u8) -> Shape {
    match letter {
        b'v' => Shape::Void,
        b'b' => Shape::Bool,
        b't' => Shape::Struct,
        b'a' => Shape::Array {
            elem: TypeId(4),
            len: 4,
            nested: false,
        },
        b'p' => Shape::Pointer {
            space: Space::Global,
            to: TypeId(4),
            readonly: false,
            restricted: false,
        },
        _ => Shape::Integers(int()),
    }
}

fn qual(letter: u8) -> Qual {
    match letter {
        b'c' => Qual::Const,
        b'r' => Qual::Restrict,
        b'g' => Qual::Space(Space::Global),
        b'k' => Qual::Space(Space::Constant),
        b'l' => Qual::Space(Space::Local),
        b'p' => Qual::Space(Space::Private),
        _ => Qual::Volatile,
    }
}

fn quals(alloc: Global, letters: &str) -> Result<List<Qual>, NoMemory> {
    let mut list = List::new(alloc);
    for letter in letters.as_bytes() {
        if *letter != b'-' {
            list.push(qual(*letter))?;
        }
    }
    Ok(list)
}

fn star(alloc: Global, word: &str) -> Result<Option<List<Qual>>, NoMemory> {
    match word.strip_prefix('*') {
        Some(letters) => Ok(Some(quals(alloc, letters)?)),
        None => Ok(None),
    }
}

fn length(letter: u8) -> Length {
    match letter {
        b'n' => length_from(Some(3)),
        b'o' => Length::Open,
        _ => length_from(None),
    }
}

fn lengths(alloc: Global, letters: &str) -> Result<List<Length>, NoMemory> {
    let mut list = List::new(alloc);
    for letter in letters.as_bytes() {
        if *letter != b'-' {
            list.push(length(*letter))?;
        }
    }
    Ok(list)
}

fn target(letter: u8) -> Target {
    Target {
        ty: TypeId(7),
        shape: shape(letter),
    }
}

fn space_letter(space: Space) -> u8 {
    match space {
        Space::Global => b'g',
        Space::Constant => b'k',
        Space::Local => b'l',
        Space::Private => b'p',
    }
}

fn tell(
    text: &mut Text,
    readonly: bool,
    space: Option<Space>,
    clash: bool,
) -> Result<(), NoMemory> {
    if readonly {
        text.extend(b"c")?;
    }
    if let Some(space) = space {
        text.extend(&[space_letter(space)])?;
    }
    if clash {
        text.extend(b"!")?;
    }
    Ok(())
}

fn told(alloc: Global, letters: &str) -> Result<Text, NoMemory> {
    let quals = quals(alloc, letters)?;
    let q = qualify(quals.as_slice(), plain(target(b'i'), false));
    let mut text = Text::from_bytes(alloc, b"i")?;
    tell(&mut text, q.readonly, q.space, q.clash)?;
    Ok(text)
}

fn code(sketch: &Sketch) -> &'static [u8] {
    match sketch.member_broken(false, false, false) {
        Some(303) => b"303",
        Some(304) => b"304",
        Some(326) => b"326",
        Some(_) => b"?",
        None => b"0",
    }
}

fn kind(sketch: &Sketch) -> &'static [u8] {
    if sketch.is_array() {
        b"a"
    } else if sketch.is_void() {
        b"v"
    } else if sketch.is_bool() {
        b"b"
    } else if sketch.is_pointer() {
        b"p"
    } else {
        b""
    }
}

fn declared(alloc: Global, case: &str) -> Result<Text, NoMemory> {
    let mut parts = case.split(' ');
    let ty = parts.next().unwrap_or("");
    let words = parts.next().unwrap_or("");
    let behind = parts.next().unwrap_or("");
    let numbers = parts.next().unwrap_or("");
    let quals = quals(alloc, words)?;
    let letter = match ty.as_bytes() {
        [letter, ..] => *letter,
        [] => b'i',
    };
    let q = qualify(quals.as_slice(), plain(target(letter), false));
    let sketch = Sketch::new(q, &star(alloc, behind)?, lengths(alloc, numbers)?);
    let mut text = Text::new(alloc);
    text.extend(code(&sketch))?;
    text.extend(kind(&sketch))?;
    tell(&mut text, sketch.readonly, sketch.space, sketch.clash)?;
    Ok(text)
}

fn word(base: Base) -> (Option<Shape>, bool) {
    (word_shape(&base), is_sized(&base))
}

#[test]
fn words_name_types(rt: HostRuntime) {
    assert_eq!(rt; word(Base::Void), (Some(Shape::Void), false));
    assert_eq!(rt; word(Base::Bool), (Some(Shape::Bool), false));
    let long = Gentype {
        bits: 64,
        signed: false,
        count: 1,
    };
    let ulong = Base::Int {
        bits: 64,
        signed: false,
    };
    assert_eq!(rt; word(ulong), (Some(Shape::Integers(long)), false));
    let uchar4 = Base::Vector {
        bits: 8,
        signed: false,
        n: 4,
    };
    let bytes = Gentype {
        bits: 8,
        signed: false,
        count: 4,
    };
    assert_eq!(rt; word(uchar4), (Some(Shape::Integers(bytes)), false));
    assert_eq!(rt;
        word(Base::Sized { signed: true }),
        (Some(Shape::Integers(int())), true)
    );
}

#[test]
fn qualifiers_add_up(rt: HostRuntime) -> Result<(), Fail> {
    for line in QUALIFIERS.lines() {
        let (wanted, letters) = line.split_once(" <- ").ok_or("a row without its arrow")?;
        let told = told(rt.alloc(), letters)?;
        assert!(rt; told.as_slice() == wanted.as_bytes(), "{line}");
    }
    Ok(())
}

#[test]
fn names_are_declared(rt: HostRuntime) -> Result<(), Fail> {
    for line in SKETCHES.lines() {
        let (wanted, case) = line.split_once(" <- ").ok_or("a row without its arrow")?;
        let found = declared(rt.alloc(), case)?;
        assert!(rt; found.as_slice() == wanted.as_bytes(), "{line}");
    }
    Ok(())
}

#[test]
fn pointers_keep_their_words(rt: HostRuntime) -> Result<(), Fail> {
    let alloc = rt.alloc();
    let words = quals(alloc, "gc")?;
    let q = qualify(words.as_slice(), plain(target(b'i'), false));
    let behind = star(alloc, "*rc")?;
    assert_eq!(rt; restrict_behind(&behind), Some(true));
    assert_eq!(rt; restrict_behind(&star(alloc, "*c")?), Some(false));
    assert_eq!(rt; restrict_behind(&None), None);
    let sketch = Sketch::new(q, &behind, lengths(alloc, "")?);
    let pointer = Shape::Pointer {
        space: Space::Global,
        to: TypeId(7),
        readonly: true,
        restricted: true,
    };
    assert_eq!(rt; sketch.of, Want::Of(pointer));
    assert!(rt; sketch.readonly);
    let own: Qualified = named_type(target(b'p'), true, Space::Private);
    assert_eq!(rt; own.space, None);
    assert_eq!(rt;
        named_type(target(b'p'), true, Space::Local).space,
        Some(Space::Local)
    );
    Ok(())
}

#[test]
fn lengths_and_members_are_judged(rt: HostRuntime) -> Result<(), Fail> {
    let alloc = rt.alloc();
    assert!(rt; is_open(lengths(alloc, "on")?.as_slice()));
    assert!(rt; !is_open(lengths(alloc, "no")?.as_slice()));
    assert!(rt; some_wrong(lengths(alloc, "nw")?.as_slice()));
    assert!(rt; !some_wrong(lengths(alloc, "on")?.as_slice()));
    let mut members = List::new(alloc);
    members.push(Member {
        name: Text::from_bytes(alloc, b"first")?,
        ty: TypeId(4),
    })?;
    assert!(rt; has_member(b"first", members.as_slice()));
    assert!(rt; !has_member(b"fir", members.as_slice()));
    let plain = Sketch::new(plain(target(b'i'), false), &None, lengths(alloc, "")?);
    assert_eq!(rt; plain.member_broken(true, true, true), Some(302));
    assert_eq!(rt; plain.member_broken(false, true, true), Some(501));
    assert_eq!(rt; plain.member_broken(false, false, true), Some(502));
    Ok(())
}
