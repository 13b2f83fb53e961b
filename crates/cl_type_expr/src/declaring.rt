//! The types of declared names.

ghost use Rattle.std.specs.Prelude.{◌≡◌, ◌*◌, ◌<◌, ◌≤◌, true, false, nat_lt, IfOk, IfErr, OnOk};
ghost use Rattle.cl_builtins.specs.Found.{IsKnown};
ghost use Rattle.cl_ast.specs.declared.expression.Base.TheViews.{out-Declor};
ghost use Rattle.cl_tree.specs.Shapes.{shape_of};
ghost use Rattle.cl_tree.specs.Units.{is_object};
ghost use Rattle.cl_types.specs.Layout.{size_of};
ghost use Rattle.cl_types.specs.Table.{tree_of};
ghost use Rattle.cl_words.specs.Words.{number_in, numbers, no_declared_type};
ghost use Rattle.cl_make.specs.Ready.{From, Grows, IsReadyType};
ghost use Rattle.cl_make.specs.Wanted.{IsArrayOf};
ghost use Rattle.cl_type_expr.specs.Sizes.{product, AreSome, ArraysStop};
ghost use Rattle.cl_type_expr.specs.Typing.{ArePositive, AreReadyMembers, IsReadySketch, DeclaredIs, DeclaredStops, MemberIsNamed, MemberNameStops};

use crate::members::Members;
use crate::node::out;
use cl_ast::expression::Declor;
use cl_make::given;
use cl_rules::Qualified;
use cl_types::{ClType, TypeId, TypeStop, TypeTable};
use cl_words::{Length, Sketch};
use clv_place::{List, NoMemory, Stop};
use std::alloc::Global;

/// The most bytes of a type.
const MAX_SIZE: u64 = 65_536;

// The number of elements that a length says. A first one that is missing counts as so many.
fn number_in(first: u64, length: Length) -> u64
    ensures { result ≡ number_in first length }
{
    match length {
        Length::Long(n) => n,
        Length::Open => first,
        Length::Wrong => 1,
    }
}

// The numbers of elements, the outermost first.
fn numbers(alloc: Global, first: u64, lengths: &[Length]) -> Result<List<u64>, NoMemory>
    ensures { IfOk result (λ ns. ns ≡ numbers first lengths.now) }
{
    let mut all = List::new(alloc);
    let mut missing = first;
    for length in lengths {
        all.push(number_in(missing, *length))?;
        missing = 1;
    }
    Ok(all)
}

// Whether an array of so many elements in all, each of these bytes, is over 65,536 bytes.
fn is_large(size: u32, numbers: &[u64]) -> bool
    requires { size ≤ 65536 }
    ensures { result ≡ nat_lt 65536 (product numbers.now * size) }
{
    let mut bytes = u64::from(size);
    for number in numbers {
        bytes = (bytes * (*number).min(MAX_SIZE + 1)).min(MAX_SIZE + 1);
    }
    bytes > MAX_SIZE
}

// The type of an array of arrays, the outermost number first, that isn't too large.
fn arrays(elem: TypeId, numbers: &[u64], types: &mut TypeTable) -> Result<TypeId, TypeStop>
    requires known { IsKnown types.old elem }
    requires object { is_object (shape_of types.old elem) ≡ true }
    requires some { AreSome numbers.now }
    requires fits { product numbers.now * size_of (tree_of types.old elem.0) ≤ 65536 }
    ensures ok { IfOk result (λ t. From types.new (λ more. IsArrayOf more elem numbers.now t)) }
    ensures out { IfErr result (ArraysStop types.new elem numbers.now) }
    ensures grows { Grows types.old types.new }
{
    types.is_table();
    let mut ty = elem;
    let mut at = numbers.len();
    while at > 0 {
        at -= 1;
        let len = numbers[at] as u32;
        ty = types.intern(ClType::Array { elem: ty, len })?;
        types.is_table();
    }
    Ok(ty)
}

/// The type of a declared name (C99, 6.7.5), with so many elements where its first length is missing: `TooLarge`
/// exactly where it is over 65,536 bytes, and `TooDeep` exactly where it isn't and types nest in it over 16 deep.
/// Its lengths are above 0, and it has none where there is no array of its type.
pub fn declared(
    alloc: Global,
    sketch: &Sketch,
    first: u64,
    types: &mut TypeTable,
) -> Result<TypeId, TypeStop>
    requires ready { IsReadySketch types.old sketch.now }
    requires element { no_declared_type sketch.now ≡ false }
    requires positive { ArePositive sketch.now.lengths }
    requires some { 0 < first }
    ensures ok { IfOk result (DeclaredIs types.new sketch.now first) }
    ensures out { IfErr result (DeclaredStops types.new sketch.now first) }
    ensures grows { Grows types.old types.new }
{
    types.is_table();
    let elem = given(sketch.of, types)?;
    types.is_table();
    if sketch.lengths.is_empty() {
        return Ok(elem);
    }
    let numbers = numbers(alloc, first, sketch.lengths.as_slice())?;
    if is_large(types.size(elem), numbers.as_slice()) {
        return Err(TypeStop::TooLarge);
    }
    arrays(elem, numbers.as_slice(), types)
}

// A member behind others: 302, 303, 304, 326, 501, 502.
pub(crate) fn member_named(
    alloc: Global,
    q: Qualified,
    named: &Declor,
    lengths: List<Length>,
    members: &mut Members,
    types: &mut TypeTable,
) -> Result<(), Stop>
    requires type_ready { IsReadyType types.old q }
    requires positive { ArePositive lengths }
    requires ready { AreReadyMembers types.old members.old }
    ensures ok { OnOk result (MemberIsNamed types.new q (out-Declor named.now).star lengths (out-Declor named.now).name members.old members.new) }
    ensures out { IfErr result (MemberNameStops types.new q (out-Declor named.now).star lengths (out-Declor named.now).name (out-Declor named.now).place members.old) }
    ensures grows { Grows types.old types.new }
{
    types.is_table();
    let sketch = Sketch::new(q, &named.star, lengths);
    let repeated = members.contains(named.name.as_slice());
    if let Some(code) = sketch.member_broken(repeated, false, false) {
        return Err(out(code, named.place));
    }
    match declared(alloc, &sketch, 1, types) {
        Ok(ty) => Ok(members.push(named.name.as_slice(), ty)?),
        Err(TypeStop::TooLarge) => Err(out(501, named.place)),
        Err(TypeStop::TooDeep) => Err(out(502, named.place)),
        Err(TypeStop::NoMemory) => Err(Stop::NoMemory),
    }
}
