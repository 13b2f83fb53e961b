//! What the types of a table are, and what operators ask of them.

use cl_builtins::Gentype;
use cl_tree::{Shape, promoted, relation_type, same_space};
use cl_types::{ClType, Member, Space, TypeId, TypeStop, TypeTable};
use clv_place::{List, Text};
use std::alloc::Global;
use std::test::Fail;

// The numbers of the types of the tests.
const VOID: TypeId = TypeId(0);

const BOOL: TypeId = TypeId(1);

const SHORT: TypeId = TypeId(2);

const VECTOR: TypeId = TypeId(3);

const ARRAY: TypeId = TypeId(4);

const ARRAYS: TypeId = TypeId(5);

const STRUCT: TypeId = TypeId(6);

const POINTER: TypeId = TypeId(7);

// Three components of a type of the table.
fn vector(types: &mut TypeTable, elem: TypeId) -> Result<(), TypeStop> {
    if elem.0 as usize >= types.len() {
        return Err(TypeStop::NoMemory);
    }
    let ClType::Int { .. } = types.get(elem) else {
        return Err(TypeStop::NoMemory);
    };
    let _ = types.intern(ClType::Vector { elem, n: 3 })?;
    Ok(())
}

// Five elements of a type of the table.
fn array(types: &mut TypeTable, elem: TypeId) -> Result<(), TypeStop> {
    if elem.0 as usize >= types.len() {
        return Err(TypeStop::NoMemory);
    }
    match types.get(elem) {
        ClType::Int { .. } => {}
        ClType::Array { .. } => {}
        _ => return Err(TypeStop::NoMemory),
    }
    let _ = types.intern(ClType::Array { elem, len: 5 })?;
    Ok(())
}

// A pointer to a type of the table.
fn pointer(types: &mut TypeTable, to: TypeId) -> Result<(), TypeStop> {
    if to.0 as usize >= types.len() {
        return Err(TypeStop::NoMemory);
    }
    let _ = types.intern(ClType::Pointer {
        space: Space::Local,
        to,
        readonly: true,
        restricted: false,
    })?;
    Ok(())
}

fn structure(alloc: Global, types: &mut TypeTable, ty: TypeId) -> Result<(), TypeStop> {
    if ty.0 as usize >= types.len() {
        return Err(TypeStop::NoMemory);
    }
    let ClType::Int { .. } = types.get(ty) else {
        return Err(TypeStop::NoMemory);
    };
    let mut members = List::new(alloc);
    members.push(Member {
        name: Text::from_bytes(alloc, b"m")?,
        ty,
    })?;
    let name = Text::from_bytes(alloc, b"s")?;
    let _ = types.intern(ClType::Struct { name, members })?;
    Ok(())
}

fn table(alloc: Global) -> Result<TypeTable, TypeStop> {
    let mut types = TypeTable::new(alloc)?;
    let _ = types.intern(ClType::Void)?;
    let _ = types.intern(ClType::Bool)?;
    let _ = types.intern(ClType::Int {
        bits: 16,
        signed: true,
    })?;
    vector(&mut types, SHORT)?;
    array(&mut types, SHORT)?;
    array(&mut types, ARRAY)?;
    structure(alloc, &mut types, SHORT)?;
    pointer(&mut types, SHORT)?;
    Ok(types)
}

fn shorts(count: u8) -> Shape {
    Shape::Integers(Gentype {
        bits: 16,
        signed: true,
        count,
    })
}

fn shape(alloc: Global, t: TypeId) -> Result<Option<Shape>, TypeStop> {
    let types = table(alloc)?;
    if t.0 as usize >= types.len() {
        return Ok(None);
    }
    Ok(Some(Shape::of(&types, t)))
}

#[test]
fn types_have_their_shapes(rt: HostRuntime) -> Result<(), Fail> {
    let alloc = rt.alloc();
    for (t, wanted) in [
        (VOID, Shape::Void),
        (BOOL, Shape::Bool),
        (SHORT, shorts(1)),
        (VECTOR, shorts(3)),
        (
            ARRAY,
            Shape::Array {
                elem: SHORT,
                len: 5,
                nested: false,
            },
        ),
        (
            ARRAYS,
            Shape::Array {
                elem: ARRAY,
                len: 5,
                nested: true,
            },
        ),
        (STRUCT, Shape::Struct),
        (
            POINTER,
            Shape::Pointer {
                space: Space::Local,
                to: SHORT,
                readonly: true,
                restricted: false,
            },
        ),
    ] {
        assert_eq!(rt; shape(alloc, t)?, Some(wanted), "{}", t.0);
    }
    Ok(())
}

// Whether a shape is void, bool, an array, a struct, a pointer, a number, a vector; whether `++` takes it, and a value.
fn kinds(s: Shape) -> [bool; 9] {
    [
        s.is_void(),
        s.is_bool(),
        s.is_array(),
        s.is_struct(),
        s.is_pointer(),
        s.is_number(),
        s.is_vector(),
        s.is_steppable(),
        s.takes_value(),
    ]
}

fn letters(s: Shape) -> [u8; 9] {
    let kinds = kinds(s);
    let mut letters = *b"vbaspnxt=";
    for at in 0..9 {
        if !kinds[at] {
            letters[at] = b'.';
        }
    }
    letters
}

#[test]
fn shapes_are_of_their_kinds(rt: HostRuntime) -> Result<(), Fail> {
    let alloc = rt.alloc();
    for (t, wanted) in [
        (VOID, b"v........"),
        (BOOL, b".b...n.t="),
        (SHORT, b".....n.t="),
        (VECTOR, b"......xt="),
        (ARRAY, b"..a......"),
        (STRUCT, b"...s....="),
        (POINTER, b"....p..t="),
    ] {
        match shape(alloc, t)? {
            Some(s) => assert_eq!(rt; letters(s), *wanted, "{}", t.0),
            None => assert!(rt; false),
        }
    }
    Ok(())
}

fn converts(alloc: Global, from: TypeId, to: TypeId) -> Result<Option<bool>, TypeStop> {
    let (a, b) = (shape(alloc, from)?, shape(alloc, to)?);
    match (a, b) {
        (Some(a), Some(b)) => Ok(Some(a.converts(from, b, to))),
        _ => Ok(None),
    }
}

#[test]
fn values_convert_to_types(rt: HostRuntime) -> Result<(), Fail> {
    let alloc = rt.alloc();
    for (from, to, wanted) in [
        (BOOL, SHORT, true),
        (SHORT, BOOL, true),
        (SHORT, VECTOR, true),
        (VECTOR, SHORT, false),
        (VECTOR, VECTOR, true),
        (STRUCT, STRUCT, true),
        (STRUCT, SHORT, false),
        (ARRAY, ARRAY, false),
        (VOID, VOID, false),
        (POINTER, POINTER, true),
        (SHORT, POINTER, false),
    ] {
        assert_eq!(rt;
            converts(alloc, from, to)?,
            Some(wanted),
            "{} {}",
            from.0,
            to.0
        );
    }
    Ok(())
}

#[test]
fn integers_are_promoted_and_related(rt: HostRuntime) -> Result<(), Fail> {
    let short = Gentype {
        bits: 16,
        signed: false,
        count: 1,
    };
    let shorts = Gentype { count: 4, ..short };
    assert_eq!(rt; promoted(short), Gentype::int());
    assert_eq!(rt; promoted(shorts), shorts);
    assert_eq!(rt; relation_type(short), Gentype::int());
    assert_eq!(rt;
        relation_type(shorts),
        Gentype {
            signed: true,
            ..shorts
        }
    );
    assert_eq!(rt; Shape::Bool.arithmetic(), Some(Gentype::int()));
    assert_eq!(rt; Shape::Integers(shorts).arithmetic(), Some(shorts));
    assert_eq!(rt; Shape::Struct.arithmetic(), None);
    assert_eq!(rt; Shape::Bool.rank(), 0);
    assert_eq!(rt; Shape::Integers(short).rank(), 16);
    assert!(rt; same_space(Space::Local, Space::Local));
    assert!(rt; !same_space(Space::Local, Space::Global));
    Ok(())
}
