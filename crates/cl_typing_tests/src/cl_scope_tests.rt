//! Names are hidden and found again.

use cl_scope::{Declared, DeclaredKind, Names, Scope, Signature};
use cl_types::{Space, TypeId};
use clv_place::{List, NoMemory, Text};
use std::alloc::Global;
use std::test::Fail;

// Names that are declared, each a letter (a tag of a struct where it is a capital), in blocks by `{` and `}`; a
// letter that is looked up then; how deep its declaration stands, from 1, or 0 where there is none; and whether
// the innermost block has one itself.
const FOUND: [(&'static [u8], u8, u32, bool); 11] = [
    (b"xy", b'x', 1, true),
    (b"xy{", b'x', 1, false),
    (b"x{x", b'x', 2, true),
    (b"x{x}", b'x', 1, true),
    (b"x{X", b'x', 1, false),
    (b"x{X", b'X', 2, true),
    (b"x{X}", b'X', 0, false),
    (b"x{x{yx}{X", b'x', 2, false),
    (b"{x}y", b'x', 0, false),
    (b"X{xX{x}", b'X', 2, true),
    (b"X{x{Y}}", b'X', 1, true),
];

fn declared(
    alloc: Global,
    name: &[u8],
    number: u32,
    kind: DeclaredKind,
) -> Result<Declared, NoMemory> {
    Ok(Declared {
        name: Text::from_bytes(alloc, name)?,
        ty: TypeId(number),
        space: Space::Private,
        readonly: false,
        kind,
        complete: true,
    })
}

fn signature(alloc: Global, name: &[u8], number: u32) -> Result<Signature, NoMemory> {
    Ok(Signature {
        number,
        name: Text::from_bytes(alloc, name)?,
        params: List::new(alloc),
        result: TypeId(0),
        kernel: false,
        body: true,
    })
}

// What a letter declares at a depth.
fn letter(alloc: Global, letter: u8, depth: u32) -> Result<Declared, NoMemory> {
    let kind = if letter.is_ascii_uppercase() {
        DeclaredKind::Tag
    } else {
        DeclaredKind::Var(0)
    };
    declared(alloc, &[letter.to_ascii_lowercase()], depth, kind)
}

fn depth_of(found: Option<&Declared>) -> u32 {
    match found {
        None => 0,
        Some(declared) => declared.ty.0,
    }
}

fn found(names: &Names, letter: u8) -> u32 {
    let name = [letter.to_ascii_lowercase()];
    if letter.is_ascii_uppercase() {
        depth_of(names.find_tag(&name))
    } else {
        depth_of(names.find(&name))
    }
}

fn is_own(names: &Names, letter: u8) -> bool {
    let name = [letter.to_ascii_lowercase()];
    if letter.is_ascii_uppercase() {
        names.is_tagged(&name)
    } else {
        names.is_declared(&name)
    }
}

// The names of a text's blocks that are open, with their marks.
#[derive(Drop)]
struct Blocks {
    names: Names,
    marks: Vec<usize>,
    depth: u32,
}

impl Blocks {
    fn enter(&mut self) -> Result<(), NoMemory> {
        let mark = self.names.enter();
        self.marks.push(mark)?;
        self.depth = self.depth.saturating_add(1);
        Ok(())
    }

    fn leave(&mut self) {
        if let Some(mark) = self.marks.pop() {
            self.names.leave(mark);
            self.depth = self.depth.saturating_sub(1);
        }
    }

    fn step(&mut self, alloc: Global, step: u8) -> Result<(), NoMemory> {
        match step {
            b'{' => self.enter(),
            b'}' => {
                self.leave();
                Ok(())
            }
            _ => self.names.declare(letter(alloc, step, self.depth)?),
        }
    }
}

fn read(alloc: Global, text: &[u8]) -> Result<Blocks, NoMemory> {
    let mut blocks = Blocks {
        names: Names::new(alloc),
        marks: Vec::new(alloc),
        depth: 1,
    };
    for step in text {
        blocks.step(alloc, *step)?;
    }
    Ok(blocks)
}

// How deep a letter is found behind a text, and whether the innermost block has it itself.
fn look_up(alloc: Global, text: &[u8], letter: u8) -> Result<(u32, bool), NoMemory> {
    let blocks = read(alloc, text)?;
    Ok((found(&blocks.names, letter), is_own(&blocks.names, letter)))
}

// Functions of these names, with the numbers from 1.
fn functions(alloc: Global, names: &[&[u8]]) -> Result<Names, NoMemory> {
    let mut all = Names::new(alloc);
    let mut number: u32 = 1;
    for name in names {
        all.add_function(signature(alloc, name, number)?)?;
        number = number.saturating_add(1);
    }
    Ok(all)
}

// The number of a function, or 0 where there is none.
fn number_of(found: Option<&Signature>) -> u32 {
    match found {
        None => 0,
        Some(function) => function.number,
    }
}

// The number of the first function of a name, or 0 where there is none.
fn function_number(alloc: Global, name: &[u8]) -> Result<u32, NoMemory> {
    let names = functions(alloc, &[b"f", b"g", b"f"])?;
    Ok(number_of(names.find_function(name)))
}

#[test]
fn inner_names_hide_outer_ones_until_their_block_ends(rt: HostRuntime) -> Result<(), Fail> {
    for (text, letter, depth, own) in FOUND {
        assert_eq!(rt;
            look_up(rt.alloc(), text, letter)?,
            (depth, own),
            "{text:?}"
        );
    }
    Ok(())
}

#[test]
fn first_function_of_a_name_stays(rt: HostRuntime) -> Result<(), Fail> {
    assert_eq!(rt; function_number(rt.alloc(), b"f")?, 1);
    assert_eq!(rt; function_number(rt.alloc(), b"g")?, 2);
    assert_eq!(rt; function_number(rt.alloc(), b"h")?, 0);
    Ok(())
}

// A block that declares a variable and a tag of one name.
fn block(alloc: Global, name: &[u8], number: u32, tag: u32) -> Result<List<Declared>, NoMemory> {
    let mut block = List::new(alloc);
    block.push(declared(alloc, name, number, DeclaredKind::Var(0))?)?;
    block.push(declared(alloc, name, tag, DeclaredKind::Tag)?)?;
    Ok(block)
}

fn outer_and_inner(alloc: Global) -> Result<List<List<Declared>>, NoMemory> {
    let mut blocks = List::new(alloc);
    blocks.push(block(alloc, b"x", 1, 2)?)?;
    blocks.push(block(alloc, b"y", 3, 4)?)?;
    Ok(blocks)
}

fn signatures(alloc: Global) -> Result<List<Signature>, NoMemory> {
    let mut functions = List::new(alloc);
    functions.push(signature(alloc, b"f", 1)?)?;
    functions.push(signature(alloc, b"f", 2)?)?;
    Ok(functions)
}

// Two blocks, and two functions of one name.
fn scope(alloc: Global) -> Result<Scope, NoMemory> {
    let blocks = outer_and_inner(alloc)?;
    let functions = signatures(alloc)?;
    Ok(Scope { blocks, functions })
}

// How deep a letter is found in that scope, and the number of a function of its.
fn look_up_in_scope(alloc: Global, letter: u8) -> Result<(u32, bool, u32), NoMemory> {
    let scope = scope(alloc)?;
    let names = Names::of(alloc, &scope)?;
    Ok((
        found(&names, letter),
        is_own(&names, letter),
        number_of(names.find_function(b"f")),
    ))
}

#[test]
fn scope_is_looked_up(rt: HostRuntime) -> Result<(), Fail> {
    assert_eq!(rt; look_up_in_scope(rt.alloc(), b'x')?, (1, false, 1));
    assert_eq!(rt; look_up_in_scope(rt.alloc(), b'Y')?, (4, true, 1));
    Ok(())
}

// What is seen of copies: whether a tag is one, its type's number and a function's number.
fn copied(alloc: Global) -> Result<(bool, u32, u32), NoMemory> {
    let tag = letter(alloc, b'X', 5)?.copy(alloc)?;
    let function = signature(alloc, b"f", 6)?.copy(alloc)?;
    Ok((tag.kind.is_tag(), tag.ty.0, function.number))
}

#[test]
fn declarations_are_copied(rt: HostRuntime) -> Result<(), Fail> {
    assert_eq!(rt; copied(rt.alloc())?, (true, 5, 6));
    Ok(())
}
