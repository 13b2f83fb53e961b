//! The table of types, with the layout of each.

ghost use Rattle.std.specs.Prelude.{◌≡◌, ℕ, ◌+◌, ◌*◌, ◌<◌, ◌≤◌, ◌^◌, ◌++◌, ◌∷◌, [], true, length, slice_get, Some, IfOk, IfErr, OnErr};
ghost use Rattle.cl_types.specs.Layout.{Scalar, Vector, Array, Struct, is_width, is_count, up, room_of, size_of, align_of, depth_of, offset_of};
ghost use Rattle.cl_types.specs.Rows.{IsRow, IsLimited, Measures};
ghost use Rattle.cl_types.specs.Table.{trees, trees_at, tree_of, tree_from, is_sized, is_integer, AreSized, IsBuilt, Interned, IsOver, IsTable, IsWithin, member_count};

use crate::stop::TypeStop;
use crate::types::{ClType, Member, TypeId};
use clv_place::NoMemory;
use indexmap::IndexMap;
use std::alloc::Global;
use std::marker::Model;

/// The most bytes of a type.
const MAX_SIZE: u32 = 65_536;

/// The most types that nest in one another.
const MAX_DEPTH: u32 = 16;

/// The most types of a table.
const MAX_TYPES: usize = 4_294_967_296;

// The layout of a type: its bytes, how many types nest in it, and where a struct's members lie.
#[derive(Drop)]
pub(crate) struct Row {
    pub(crate) size: u32,
    pub(crate) align: u32,
    pub(crate) depth: u32,
    pub(crate) offsets: Vec<u32>,
}

/// Types that differ, each built of earlier ones, with their layouts. A contract sees it as the list of its
/// types by their numbers.
#[derive(Drop)]
pub struct TypeTable {
    rows: IndexMap<ClType, Row>,
}

impl Model for TypeTable {
    ghost use Rattle.std.specs.Prelude.{List};
    ghost use Rattle.std.specs.Map.{keys_of};
    ghost use Rattle.cl_types.specs.declared.types.ClType.{ClType as AType};
    ghost use Rattle.cl_types.specs.Rows.{AreRows};

    ghost Value = { List AType };

    ghost view = { λ t. keys_of t.rows.entries };

    ghost invariant = { λ t. AreRows t.rows.entries };
}

// The next multiple of an alignment.
pub(crate) fn round_up(align: u32, at: u32) -> u32
    requires some { 0 < align }
    requires fits { at + align < 2 ^ 32 }
    ensures { result ≡ up align at }
{
    (at + (align - 1)) / align * align
}

fn room(n: u8) -> u32
    ensures { result ≡ room_of n }
{
    if n == 3 { 4 } else { n as u32 }
}

// The layout, unless it breaks a limit.
fn limited(size: u64, align: u32, depth: u32, offsets: Vec<u32>) -> Result<Row, TypeStop>
    ensures { IsLimited size align depth offsets.items result }
{
    if size > MAX_SIZE as u64 {
        return Err(TypeStop::TooLarge);
    }
    if depth > MAX_DEPTH {
        return Err(TypeStop::TooDeep);
    }
    let size = size as u32;
    Ok(Row {
        size,
        align,
        depth,
        offsets,
    })
}

impl TypeTable {
    /// A table with no type. It keeps the allocator for what is added.
    pub fn new(alloc: Global) -> Result<TypeTable, NoMemory>
        ensures { IfOk result (λ t. t ≡ []) }
    {
        let rows = IndexMap::with_capacity(alloc, 16)?;
        Ok(TypeTable { rows })
    }

    /// The number of a type, which is added where the table doesn't have it yet. Equal types have one
    /// number, and earlier numbers stay. `TooLarge` comes exactly where the type's size is over 65,536
    /// bytes, and `TooDeep` exactly where it isn't and types nest in it over 16 deep, but for want of memory
    /// or of a number. A refusal changes nothing.
    pub fn intern(&mut self, ty: ClType) -> Result<TypeId, TypeStop>
        // Its parts are of the table; elements and members aren't void, and a vector's are integers.
        requires { IsBuilt self.old ty }
        ensures number { IfOk result (λ t. Interned self.old self.new ty t.0) }
        ensures within { IfOk result (λ t. IsWithin (tree_from (trees self.old) ty)) }
        ensures over { IfErr result (IsOver (tree_from (trees self.old) ty)) }
        ensures refused { OnErr result (self.new ≡ self.old) }
    {
        match self.rows.get_index_of(&ty) {
            Some(at) => Ok(TypeId(at as u32)),
            None => self.add(ty),
        }
    }

    // Adds a type that the table doesn't have.
    fn add(&mut self, ty: ClType) -> Result<TypeId, TypeStop>
        requires built { IsBuilt self.old ty }
        requires new { (i : ℕ) → slice_get self.old i ≡ Some ty → ⊥ }
        ensures number { IfOk result (λ t. (t.0 ≡ length self.old) × (self.new ≡ self.old ++ ty ∷ [])) }
        ensures within { IfOk result (λ t. IsWithin (tree_from (trees self.old) ty)) }
        ensures over { IfErr result (IsOver (tree_from (trees self.old) ty)) }
        ensures refused { OnErr result (self.new ≡ self.old) }
    {
        let row = self.measure(&ty)?;
        let at = self.rows.len();
        if at >= MAX_TYPES {
            return Err(TypeStop::NoMemory);
        }
        match self.rows.insert(ty, row) {
            Ok(_) => Ok(TypeId(at as u32)),
            Err(_) => Err(TypeStop::NoMemory),
        }
    }

    /// How many types the table has. Their numbers are 0 to one less.
    pub fn len(&self) -> usize
        ensures { result ≡ length self.now }
    {
        self.rows.len()
    }

    /// What holds of each table: its types differ, each is built of earlier ones and within the limits, and
    /// there are at most 2^32. It does nothing.
    pub fn is_table(&self)
        ensures { IsTable self.now }
    {
        let _types = self.rows.len();
    }

    /// The type that has a number.
    pub fn get(&self, t: TypeId) -> &ClType
        requires { t.0 < length self.now }
        ensures { slice_get self.now t.0 ≡ Some result.now }
    {
        match self.rows.get_index(t.0 as usize) {
            Some((ty, _)) => ty,
            None => unreachable!(),
        }
    }

    /// The size of a type in bytes, which is at most 65,536 (C99, 6.5.3.4; OpenCL C 1.2, 6.1.5). Void has none.
    pub fn size(&self, t: TypeId) -> u32
        requires { is_sized (slice_get self.now t.0) ≡ true }
        ensures is { result ≡ size_of (tree_of self.now t.0) }
        ensures low { result ≤ 65536 }
    {
        self.row(t).size
    }

    /// The alignment of a type in bytes: its places are multiples of it (OpenCL C 1.2, 6.1.5).
    pub fn align(&self, t: TypeId) -> u32
        requires { is_sized (slice_get self.now t.0) ≡ true }
        ensures is { result ≡ align_of (tree_of self.now t.0) }
        ensures some { 0 < result }
        ensures low { result ≤ 65536 }
    {
        self.row(t).align
    }

    /// How many bytes behind a struct's start a member lies: at the next multiple of its alignment behind
    /// the member before it (C99, 6.7.2.1). Members are counted from 0.
    pub fn offset(&self, t: TypeId, member: u32) -> u32
        requires { member < member_count (slice_get self.now t.0) }
        ensures { result ≡ offset_of (tree_of self.now t.0) member }
    {
        self.is_table();
        self.row(t).offsets[member as usize]
    }

    pub(crate) fn alloc(&self) -> Global {
        *self.rows.allocator()
    }

    // The layout of a type, which is all 0 for void.
    pub(crate) fn row(&self, t: TypeId) -> &Row
        requires { t.0 < length self.now }
        ensures { IsRow result.now (tree_of self.now t.0) }
    {
        match self.rows.get_index(t.0 as usize) {
            Some((_, row)) => row,
            None => unreachable!(),
        }
    }

    // The layout of a type that is to come.
    fn measure(&self, ty: &ClType) -> Result<Row, TypeStop>
        requires { IsBuilt self.now ty.now }
        ensures { Measures (tree_from (trees self.now) ty.now) result }
    {
        match ty {
            ClType::Void => limited(0, 1, 0, Vec::new(self.alloc())),
            ClType::Bool => self.scalar(8),
            ClType::Int { bits, .. } => self.scalar(*bits),
            ClType::Pointer { .. } => self.scalar(32),
            ClType::Vector { elem, n } => self.vector(*elem, *n),
            ClType::Array { elem, len } => self.array(*elem, *len),
            ClType::Struct { members, .. } => self.structure(members.as_slice()),
        }
    }

    fn scalar(&self, bits: u8) -> Result<Row, TypeStop>
        requires { is_width bits ≡ true }
        ensures { Measures (Scalar bits) result }
    {
        let bytes = bits / 8;
        limited(bytes as u64, bytes as u32, 1, Vec::new(self.alloc()))
    }

    fn vector(&self, elem: TypeId, n: u8) -> Result<Row, TypeStop>
        requires integer { is_integer (slice_get self.now elem.0) ≡ true }
        requires count { is_count n ≡ true }
        ensures { Measures (Vector (tree_of self.now elem.0) n) result }
    {
        self.is_table();
        let row = self.row(elem);
        let size = room(n) * row.size;
        limited(
            size as u64,
            room(n) * row.align,
            row.depth + 1,
            Vec::new(self.alloc()),
        )
    }

    fn array(&self, elem: TypeId, len: u32) -> Result<Row, TypeStop>
        requires { is_sized (slice_get self.now elem.0) ≡ true }
        ensures { Measures (Array (tree_of self.now elem.0) len) result }
    {
        let row = self.row(elem);
        let size = len as u64 * row.size as u64;
        limited(size, row.align, row.depth + 1, Vec::new(self.alloc()))
    }

    fn structure(&self, members: &[Member]) -> Result<Row, TypeStop>
        requires { AreSized self.now members.now }
        ensures { Measures (Struct (trees_at (trees self.now) members.now)) result }
    {
        self.is_table();
        let mut offsets = Vec::new(self.alloc());
        let mut end = 0;
        let mut align = 1;
        let mut depth = 0;
        for member in members {
            let row = self.row(member.ty);
            let at = round_up(row.align, end);
            offsets.push(at)?;
            end = at + row.size;
            if end > MAX_SIZE {
                return Err(TypeStop::TooLarge);
            }
            align = align.max(row.align);
            depth = depth.max(row.depth);
        }
        limited(round_up(align, end) as u64, align, depth + 1, offsets)
    }
}
