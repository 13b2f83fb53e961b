//! The bytes of constants (C99, 6.7.8): little-endian, with 0 for what no item fills and for padding.

ghost use Rattle.std.specs.Prelude.{◌≡◌, ◌++◌, ◌-◌, ◌<◌, ◌≤◌, ◌^◌, ◌||◌, nat_eq, drop, length, replicate, slice_get, IfOk, OnOk};
ghost use Rattle.cl_types.specs.Layout.{up};
ghost use Rattle.cl_types.specs.Table.{is_sized};
ghost use Rattle.cl_tree.specs.Shapes.{shape_of, members_of};
ghost use Rattle.cl_tree.specs.Constants.{constancy_of};
ghost use Rattle.cl_variables.specs.Bytes.{HasBytes, HavePieces, little, packed, size_at, align_at, component_bytes, patterns, is_whole, padded, part, inside, list_bytes, value_bytes};
ghost use Rattle.cl_variables.specs.Placing.{IsPut, IsFirstPut, elements_at, members_at};

use cl_constants::{constancy, shape};
use cl_tree::{Constancy, Shape, TExpr, TNode};
use cl_types::{ClType, Member, TypeId, TypeTable};
use clv_place::{NoMemory, Text};
use std::alloc::Global;

/// How deep types nest at most.
const MAX_DEPTH: u8 = 16;

/// What stands for a part: its type and its bytes.
#[derive(Drop)]
pub struct Piece {
    pub ty: TypeId,
    pub bytes: Text,
}

// Whether the table has the type, and it isn't void.
fn is_sized(types: &TypeTable, t: TypeId) -> bool
    ensures { result ≡ is_sized (slice_get types.now t.0) }
{
    if (t.0 as usize) >= types.len() {
        return false;
    }
    match types.get(t) {
        ClType::Void => false,
        _ => true,
    }
}

// The bytes of a type, which are none of void and of what is no type.
fn size_at(types: &TypeTable, t: TypeId) -> usize
    ensures is { result ≡ size_at types.now t }
    ensures low { result ≤ 65536 }
{
    types.is_table();
    if is_sized(types, t) {
        types.size(t) as usize
    } else {
        0
    }
}

// The alignment of a type.
fn align_at(types: &TypeTable, t: TypeId) -> usize
    ensures is { result ≡ align_at types.now t }
    ensures some { 0 < result }
    ensures low { result ≤ 65536 }
{
    types.is_table();
    if is_sized(types, t) {
        types.align(t) as usize
    } else {
        1
    }
}

// Fills up with 0.
fn pad(out: &mut Vec<u8>, to: usize) -> Result<(), NoMemory>
    ensures { OnOk result (out.new.items ≡ out.old.items ++ replicate (to - length out.old.items) 0) }
{
    if to > out.len() {
        out.resize(to, 0)?;
    }
    Ok(())
}

// So many bytes of a number, the low one first.
#[tactic(auto, using(crate::proofs::Pieces::littles))]
fn little(width: u8, n: u64, out: &mut Vec<u8>) -> Result<(), NoMemory>
    ensures { OnOk result (out.new.items ≡ out.old.items ++ little width n) }
{
    let mut rest = n;
    for _byte in 0..width {
        out.push((rest % 256) as u8)?;
        rest /= 256;
    }
    Ok(())
}

// The bytes of components.
#[tactic(auto, using(crate::proofs::Pieces::packs))]
fn packed(width: u8, ns: &[u64], out: &mut Vec<u8>) -> Result<(), NoMemory>
    ensures { OnOk result (out.new.items ≡ out.old.items ++ packed width ns.now) }
{
    for n in ns {
        little(width, *n, out)?;
    }
    Ok(())
}

fn component_bytes(s: Shape) -> u8
    ensures { result ≡ component_bytes s }
{
    match s {
        Shape::Integers(t) => t.bits / 8,
        _ => 1,
    }
}

// The components of a constant; of what is none, none.
fn patterns(value: &Constancy) -> &[u64]
    ensures { result.now ≡ patterns value.now }
{
    match value {
        Constancy::Is(ns) => ns.as_slice(),
        _ => &[],
    }
}

// The bytes of a value.
fn value_bytes(alloc: Global, types: &TypeTable, t: TypeId, ns: &[u64]) -> Result<Text, NoMemory>
    ensures { IfOk result (λ bs. bs ≡ value_bytes types.now t ns.now) }
{
    let mut out = Vec::new(alloc);
    packed(component_bytes(shape(types, t)), ns, &mut out)?;
    pad(&mut out, size_at(types, t))?;
    Ok(Text::from_vec(out))
}

// Whether a piece at an index stands for a whole part of a type.
fn is_whole(t: TypeId, pieces: &[Piece], at: usize) -> bool
    ensures { result ≡ is_whole t (drop at pieces.now) }
{
    if at < pieces.len() {
        t.0 == pieces[at].ty.0
    } else {
        false
    }
}

// Puts the bytes of the piece at an index behind those that are there. The answer is the index behind it.
fn put_first(pieces: &[Piece], at: usize, out: &mut Vec<u8>) -> Result<usize, NoMemory>
    ensures { IfOk result (IsFirstPut (drop at pieces.now) out.old.items out.new.items pieces.now) }
{
    if at >= pieces.len() {
        return Ok(at);
    }
    out.extend_from_slice(pieces[at].bytes.as_slice())?;
    Ok(at + 1)
}

// Whether a part is put whole: by a piece of its own, or where nothing lies deeper.
fn is_put_whole(deep: u8, t: TypeId, pieces: &[Piece], at: usize) -> bool
    ensures { result ≡ (nat_eq deep 0 || is_whole t (drop at pieces.now)) }
{
    deep == 0 || is_whole(t, pieces, at)
}

// Puts a part of a type: by a piece of its own, by the pieces of its parts, or 0.
#[cycle(placing)]
fn put_part(
    deep: u8,
    types: &TypeTable,
    t: TypeId,
    pieces: &[Piece],
    at: usize,
    out: &mut Vec<u8>,
) -> Result<usize, NoMemory>
    ensures { IfOk result (IsPut (part deep types.now t (drop at pieces.now)) out.old.items out.new.items pieces.now) }
{
    let end = out.len() + size_at(types, t);
    let next = if is_put_whole(deep, t, pieces, at) {
        put_first(pieces, at, out)?
    } else {
        put_inside(deep - 1, types, t, pieces, at, out)?
    };
    pad(out, end)?;
    Ok(next)
}

// Puts the parts of a type.
#[cycle(placing)]
fn put_inside(
    deep: u8,
    types: &TypeTable,
    t: TypeId,
    pieces: &[Piece],
    at: usize,
    out: &mut Vec<u8>,
) -> Result<usize, NoMemory>
    ensures { IfOk result (IsPut (inside types.now (part deep types.now) t (shape_of types.now t) (drop at pieces.now)) out.old.items out.new.items pieces.now) }
{
    match shape(types, t) {
        Shape::Array { elem, len, .. } => put_elements(deep, types, elem, len, pieces, at, out),
        Shape::Struct => put_members(deep, types, members(types, t), pieces, at, out),
        _ => Ok(at),
    }
}

// Puts elements one behind the other.
#[cycle(placing)]
fn put_elements(
    deep: u8,
    types: &TypeTable,
    elem: TypeId,
    len: u32,
    pieces: &[Piece],
    at: usize,
    out: &mut Vec<u8>,
) -> Result<usize, NoMemory>
    ensures { IfOk result (IsPut (elements_at deep types.now elem len (drop at pieces.now)) out.old.items out.new.items pieces.now) }
{
    let mut next = at;
    for _element in 0..len {
        next = put_part(deep, types, elem, pieces, next, out)?;
    }
    Ok(next)
}

// The members of a struct, and none of another type.
fn members(types: &TypeTable, t: TypeId) -> &[Member]
    ensures { result.now ≡ members_of types.now t }
{
    if (t.0 as usize) >= types.len() {
        return &[];
    }
    match types.get(t) {
        ClType::Struct { members, .. } => members.as_slice(),
        _ => &[],
    }
}

// The next multiple of an alignment.
fn up(align: usize, at: usize) -> usize
    requires some { 0 < align }
    requires low { align ≤ 65536 }
    requires fits { at < 2 ^ 63 }
    ensures { result ≡ up align at }
{
    (at + (align - 1)) / align * align
}

// Puts members at their offsets behind the start of their struct.
#[cycle(placing)]
fn put_members(
    deep: u8,
    types: &TypeTable,
    members: &[Member],
    pieces: &[Piece],
    at: usize,
    out: &mut Vec<u8>,
) -> Result<usize, NoMemory>
    ensures { IfOk result (IsPut (members_at deep types.now members.now (drop at pieces.now)) out.old.items out.new.items pieces.now) }
{
    let start = out.len();
    let mut next = at;
    for i in 0..members.len() {
        let member = members[i].ty;
        let offset = up(align_at(types, member), out.len() - start);
        pad(out, start + offset)?;
        next = put_part(deep, types, member, pieces, next, out)?;
    }
    Ok(next)
}

// The bytes of a list, by its pieces.
fn list_bytes(
    alloc: Global,
    types: &TypeTable,
    t: TypeId,
    pieces: &[Piece],
) -> Result<Text, NoMemory>
    ensures { IfOk result (λ bs. bs ≡ list_bytes types.now t (shape_of types.now t) pieces.now) }
{
    let mut out = Vec::new(alloc);
    let s = shape(types, t);
    let _next = if s.is_array() || s.is_struct() {
        put_inside(MAX_DEPTH, types, t, pieces, 0, &mut out)?
    } else {
        put_first(pieces, 0, &mut out)?
    };
    pad(&mut out, size_at(types, t))?;
    Ok(Text::from_vec(out))
}

/// The bytes of a constant's initialiser (C99, 6.7.8): little-endian, as many as its type has. A value that isn't
/// constant, as no constant of a unit has, counts as 0. Memory is its one refusal.
#[cycle(bytes)]
pub fn bytes(alloc: Global, types: &TypeTable, t: &TExpr) -> Result<Text, NoMemory>
    ensures { IfOk result (HasBytes types.now t.now) }
{
    match &t.node {
        TNode::Fill(args) => {
            let pieces = pieces(alloc, types, args)?;
            list_bytes(alloc, types, t.ty, &pieces)
        }
        _ => {
            let value = constancy(alloc, types, t)?;
            value_bytes(alloc, types, t.ty, patterns(&value))
        }
    }
}

// The pieces that stand in a list.
#[cycle(bytes)]
fn pieces(alloc: Global, types: &TypeTable, args: &[TExpr]) -> Result<Vec<Piece>, NoMemory>
    ensures { IfOk result (λ ps. HavePieces types.now args.now ps.items) }
{
    let mut pieces = Vec::new(alloc);
    for arg in args {
        pieces.push(Piece {
            ty: arg.ty,
            bytes: bytes(alloc, types, arg)?,
        })?;
    }
    Ok(pieces)
}
