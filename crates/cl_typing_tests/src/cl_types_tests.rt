//! The words are distinct, and types lie as the standard says.

ghost use Rattle.std.specs.Prelude.{◌≡◌, true, slice_get, IfOk};
ghost use Rattle.cl_types.specs.Layout.{is_count};
ghost use Rattle.cl_types.specs.Table.{is_integer, is_sized};

use cl_types::{BinOp, Builtin, ClType, Member, Scalar, Space, TypeId, TypeStop, TypeTable, UnOp};
use clv_place::{List, Text};
use std::alloc::Global;
use std::test::Fail;

#[test]
fn words_are_distinct(rt: HostRuntime) {
    assert_ne!(rt; UnOp::PreInc, UnOp::PostInc);
    assert_ne!(rt; BinOp::And, BinOp::LogicalAnd);
    assert_ne!(rt; Space::Local, Space::Private);
    assert_ne!(rt; Builtin::Vload(2), Builtin::Vload(3));
    let convert = Builtin::Convert {
        bits: 8,
        signed: true,
        sat: false,
    };
    assert_eq!(rt; convert, convert);
}

fn sized(table: &TypeTable, t: TypeId) -> Result<(), TypeStop>
    ensures { IfOk result (λ _. is_sized (slice_get table.now t.0) ≡ true) }
{
    if t.0 as usize >= table.len() {
        return Err(TypeStop::NoMemory);
    }
    match table.get(t) {
        ClType::Void => Err(TypeStop::NoMemory),
        ClType::Bool => Ok(()),
        ClType::Int { .. } => Ok(()),
        ClType::Vector { .. } => Ok(()),
        ClType::Array { .. } => Ok(()),
        ClType::Struct { .. } => Ok(()),
        ClType::Pointer { .. } => Ok(()),
    }
}

fn integer(table: &TypeTable, t: TypeId) -> Result<(), TypeStop>
    ensures { IfOk result (λ _. is_integer (slice_get table.now t.0) ≡ true) }
{
    if t.0 as usize >= table.len() {
        return Err(TypeStop::NoMemory);
    }
    match table.get(t) {
        ClType::Int { .. } => Ok(()),
        _ => Err(TypeStop::NoMemory),
    }
}

fn vector(table: &mut TypeTable, elem: TypeId, n: u8) -> Result<TypeId, TypeStop>
    requires { is_count n ≡ true }
{
    integer(table, elem)?;
    table.intern(ClType::Vector { elem, n })
}

fn array(table: &mut TypeTable, elem: TypeId, len: u32) -> Result<TypeId, TypeStop> {
    sized(table, elem)?;
    if len == 0 {
        return Err(TypeStop::NoMemory);
    }
    table.intern(ClType::Array { elem, len })
}

fn layout(table: &TypeTable, t: TypeId) -> Result<(u32, u32), TypeStop> {
    sized(table, t)?;
    Ok((table.size(t), table.align(t)))
}

fn vector_layout(table: &mut TypeTable, elem: TypeId, n: u8) -> Result<(u32, u32), TypeStop>
    requires { is_count n ≡ true }
{
    let t = vector(table, elem, n)?;
    layout(table, t)
}

fn pointer(table: &mut TypeTable, to: TypeId, readonly: bool) -> Result<TypeId, TypeStop> {
    if to.0 as usize >= table.len() {
        return Err(TypeStop::NoMemory);
    }
    table.intern(ClType::Pointer {
        space: Space::Global,
        to,
        readonly,
        restricted: false,
    })
}

fn member(alloc: Global, name: &[u8], ty: TypeId) -> Result<Member, TypeStop>
    ensures { IfOk result (λ m. m.ty ≡ ty) }
{
    let name = Text::from_bytes(alloc, name)?;
    Ok(Member { name, ty })
}

// struct { char c; int3 v; short s; }, by the numbers of its members' types.
fn padded(
    alloc: Global,
    table: &mut TypeTable,
    c: TypeId,
    v: TypeId,
    s: TypeId,
) -> Result<TypeId, TypeStop> {
    sized(table, c)?;
    sized(table, v)?;
    sized(table, s)?;
    let mut members = List::new(alloc);
    members.push(member(alloc, b"c", c)?)?;
    members.push(member(alloc, b"v", v)?)?;
    members.push(member(alloc, b"s", s)?)?;
    let name = Text::from_bytes(alloc, b"padded")?;
    table.intern(ClType::Struct { name, members })
}

fn offset(table: &TypeTable, t: TypeId, member: u32) -> Result<u32, TypeStop> {
    sized(table, t)?;
    match table.get(t) {
        ClType::Struct { members, .. } => {
            if member as usize >= members.len() {
                return Err(TypeStop::NoMemory);
            }
            Ok(table.offset(t, member))
        }
        _ => Err(TypeStop::NoMemory),
    }
}

fn is_scalar(scalar: Option<&Scalar>, path: &[u32], offset: u32, bits: u8) -> bool {
    match scalar {
        Some(scalar) => {
            scalar.path.as_slice() == path && scalar.offset == offset && scalar.bits == bits
        }
        None => false,
    }
}

fn scalars(table: &TypeTable, t: TypeId) -> Result<List<Scalar>, TypeStop> {
    sized(table, t)?;
    Ok(table.scalars(t)?)
}

#[test]
fn a_struct_is_padded(rt: HostRuntime) -> Result<(), Fail> {
    let alloc = rt.alloc();
    let mut table = TypeTable::new(alloc)?;
    let char = table.intern(ClType::Int {
        bits: 8,
        signed: true,
    })?;
    let short = table.intern(ClType::Int {
        bits: 16,
        signed: true,
    })?;
    let int = table.intern(ClType::Int {
        bits: 32,
        signed: true,
    })?;
    let int3 = vector(&mut table, int, 3)?;
    let ty = padded(alloc, &mut table, char, int3, short)?;
    assert_eq!(rt; layout(&table, ty)?, (48, 16));
    for (member, at) in [(0, 0), (1, 16), (2, 32)] {
        assert_eq!(rt; offset(&table, ty, member)?, at);
    }
    let found = scalars(&table, ty)?;
    assert_eq!(rt; found.len(), 5);
    assert!(rt; is_scalar(found.get(0), &[0], 0, 8));
    assert!(rt; is_scalar(found.get(1), &[1, 0], 16, 32));
    assert!(rt; is_scalar(found.get(2), &[1, 1], 20, 32));
    assert!(rt; is_scalar(found.get(3), &[1, 2], 24, 32));
    assert!(rt; is_scalar(found.get(4), &[2], 32, 16));
    let two = array(&mut table, ty, 2)?;
    assert_eq!(rt; layout(&table, two)?, (96, 16));
    assert!(rt; is_scalar(scalars(&table, two)?.get(6), &[1, 1, 0], 64, 32));
    Ok(())
}

#[test]
fn vectors_of_three_are_padded(rt: HostRuntime) -> Result<(), Fail> {
    let mut table = TypeTable::new(rt.alloc())?;
    let truth = table.intern(ClType::Bool)?;
    let char = table.intern(ClType::Int {
        bits: 8,
        signed: true,
    })?;
    let long = table.intern(ClType::Int {
        bits: 64,
        signed: false,
    })?;
    assert_eq!(rt; layout(&table, truth)?, (1, 1));
    assert_eq!(rt; layout(&table, long)?, (8, 8));
    assert_eq!(rt; vector_layout(&mut table, char, 2)?, (2, 2));
    assert_eq!(rt; vector_layout(&mut table, char, 3)?, (4, 4));
    assert_eq!(rt; vector_layout(&mut table, long, 3)?, (32, 32));
    assert_eq!(rt; vector_layout(&mut table, long, 4)?, (32, 32));
    let char3 = vector(&mut table, char, 3)?;
    assert_eq!(rt; scalars(&table, char3)?.len(), 3);
    let to = pointer(&mut table, char3, false)?;
    assert_eq!(rt; layout(&table, to)?, (4, 4));
    Ok(())
}

#[test]
fn limits_are_exact(rt: HostRuntime) -> Result<(), Fail> {
    let mut table = TypeTable::new(rt.alloc())?;
    let char = table.intern(ClType::Int {
        bits: 8,
        signed: true,
    })?;
    let most = array(&mut table, char, 65_536)?;
    assert_eq!(rt; layout(&table, most)?, (65_536, 1));
    assert_eq!(rt; array(&mut table, char, 65_537), Err(TypeStop::TooLarge));
    let mut deep = vector(&mut table, char, 2)?;
    for _ in 0..14 {
        deep = array(&mut table, deep, 1)?;
    }
    let types = table.len();
    assert_eq!(rt; array(&mut table, deep, 1), Err(TypeStop::TooDeep));
    assert_eq!(rt; table.len(), types);
    Ok(())
}

#[test]
fn equal_types_have_one_number(rt: HostRuntime) -> Result<(), Fail> {
    let alloc = rt.alloc();
    let mut table = TypeTable::new(alloc)?;
    let int = table.intern(ClType::Int {
        bits: 32,
        signed: true,
    })?;
    let uint = table.intern(ClType::Int {
        bits: 32,
        signed: false,
    })?;
    assert_ne!(rt; int, uint);
    let first = padded(alloc, &mut table, int, uint, int)?;
    let to = pointer(&mut table, first, true)?;
    let types = table.len();
    assert_eq!(rt; padded(alloc, &mut table, int, uint, int)?, first);
    assert_eq!(rt; pointer(&mut table, first, true)?, to);
    assert_eq!(rt; table.len(), types);
    assert_ne!(rt; padded(alloc, &mut table, int, int, int)?, first);
    assert_ne!(rt; pointer(&mut table, first, false)?, to);
    Ok(())
}
