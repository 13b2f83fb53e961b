//! The rules of calls, casts, vector literals and `sizeof`.

ghost use Rattle.std.specs.Prelude.{◌≡◌, IfOk};
ghost use Rattle.cl_rules.specs.Operands.{first_broken};
ghost use Rattle.cl_rules.specs.Calls.{some_no_value, some_no_pointer, wants_of, call_of, is_no_pointee, pointer_to, no_space, in_space, cast_pointer, no_cast, alike_spaces, other_space, cast_value, cast_rule, part_want, want_of, is_part, part_count, part_wants, some_no_part, parts_count, is_single, vector, literal, no_size, size_tests};

use crate::operand::{
    first_broken, integers, no_pointer, no_value, one, seen, type_of, unless, value,
};
use crate::operator::space_or_private;
use crate::rule::{Head, Judged, Operand, Qualified, Target, Want};
use cl_builtins::Gentype;
use cl_scope::scope::Signature;
use cl_tree::{Shape, same_space};
use cl_types::{Space, TypeId};
use clv_place::{List, NoMemory};
use std::alloc::Global;

// ---- calls of functions

fn some_no_value(os: &[Operand], targets: &[Target]) -> bool
    ensures { result ≡ some_no_value os.now targets.now }
{
    for i in 0..os.len() {
        if i >= targets.len() {
            return false;
        }
        if no_value(os[i], targets[i]) {
            return true;
        }
    }
    false
}

fn some_no_pointer(os: &[Operand], targets: &[Target]) -> bool
    ensures { result ≡ some_no_pointer os.now targets.now }
{
    for i in 0..os.len() {
        if i >= targets.len() {
            return false;
        }
        if no_pointer(os[i], targets[i]) {
            return true;
        }
    }
    false
}

/// What a call of a function wants of its arguments: the types of its parameters.
pub fn wants_of(alloc: Global, params: &[TypeId]) -> Result<List<Want>, NoMemory>
    ensures { IfOk result (λ ws. ws ≡ wants_of params.now) }
{
    let mut wants = List::new(alloc);
    for param in params {
        wants.push(Want::Type(*param))?;
    }
    Ok(wants)
}

/// A call of a function whose parameters have these types (C99, 6.5.2.2): 311, 315 to 317, 333.
pub fn call_of(
    alloc: Global,
    os: &[Operand],
    targets: &[Target],
    f: &Signature,
) -> Result<Judged, NoMemory>
    ensures { IfOk result (λ j. j ≡ call_of os.now targets.now f.now) }
{
    let wants = wants_of(alloc, f.params.as_slice())?;
    let made = value(wants, Head::Call(f.number), Want::Type(f.result));
    Ok(unless(
        &[
            (311, some_no_value(os, targets)),
            (315, os.len() != targets.len()),
            (316, f.kernel),
            (317, !f.body),
            (333, some_no_pointer(os, targets)),
        ],
        made,
    ))
}

// ---- casts

/// Whether no pointer of the language points to such a type (303).
pub fn is_no_pointee(s: Shape) -> bool
    ensures { result ≡ is_no_pointee s }
{
    s.is_void() || s.is_bool() || s.is_array() || s.is_pointer()
}

/// The pointer that a type's words name before `*`.
pub fn pointer_to(q: Qualified, restricted: bool) -> Shape
    ensures { result ≡ pointer_to q restricted }
{
    Shape::Pointer {
        space: space_or_private(q.space),
        to: q.ty,
        readonly: q.readonly,
        restricted,
    }
}

// Whether the words name two address spaces, or one where no `*` stands (326).
fn no_space(q: Qualified, star: bool) -> bool
    ensures { result ≡ no_space q star }
{
    q.clash || (!star && q.space.is_some())
}

fn in_space(space: Space, s: Shape) -> bool
    ensures { result ≡ in_space space s }
{
    match s {
        Shape::Pointer { space: own, .. } => same_space(space, own),
        _ => false,
    }
}

fn cast_pointer(
    alloc: Global,
    q: Qualified,
    restricted: bool,
    o: Operand,
) -> Result<Judged, NoMemory>
    ensures { IfOk result (λ j. j ≡ cast_pointer q restricted o) }
{
    let made = value(
        one(alloc, Want::Own)?,
        Head::Convert,
        Want::Of(pointer_to(q, restricted)),
    );
    let pointer = seen(o).is_pointer();
    let inside = in_space(space_or_private(q.space), seen(o));
    Ok(unless(
        &[
            (303, is_no_pointee(q.shape)),
            (311, !pointer),
            (326, no_space(q, true)),
            (333, pointer && !inside),
        ],
        made,
    ))
}

fn no_cast(q: Qualified, o: Operand) -> bool
    ensures { result ≡ no_cast q o }
{
    if q.shape.is_pointer() {
        !seen(o).is_pointer()
    } else {
        !o.shape.converts(o.facts.ty, q.shape, q.ty)
    }
}

fn alike_spaces(s: Shape, p: Shape) -> bool
    ensures { result ≡ alike_spaces s p }
{
    match s {
        Shape::Pointer { space, .. } => in_space(space, p),
        _ => false,
    }
}

fn other_space(q: Qualified, o: Operand) -> bool
    ensures { result ≡ other_space q o }
{
    q.shape.is_pointer() && seen(o).is_pointer() && !alike_spaces(q.shape, seen(o))
}

fn cast_value(alloc: Global, q: Qualified, o: Operand) -> Result<Judged, NoMemory>
    ensures { IfOk result (λ j. j ≡ cast_value q o) }
{
    let made = value(one(alloc, Want::Own)?, Head::Convert, Want::Type(q.ty));
    Ok(unless(
        &[
            (303, q.shape.is_void() || q.shape.is_array()),
            (311, no_cast(q, o)),
            (326, no_space(q, false)),
            (333, other_space(q, o)),
        ],
        made,
    ))
}

/// A cast (C99, 6.5.4): 303, 308, 311, 326, 333. `star` says of a `*` behind the words whether it is `restrict`.
pub fn cast_rule(
    alloc: Global,
    q: Qualified,
    star: Option<bool>,
    os: &[Operand],
) -> Result<Judged, NoMemory>
    ensures { IfOk result (λ j. j ≡ cast_rule q star os.now) }
{
    match os {
        [o] => match star {
            Some(restricted) => cast_pointer(alloc, q, restricted, *o),
            None => cast_value(alloc, q, *o),
        },
        _ => Ok(Judged::Broken(308)),
    }
}

// ---- vector literals

fn part_want(t: Gentype, s: Shape) -> Want
    ensures { result ≡ part_want t s }
{
    if s.is_number() {
        integers(t.element())
    } else {
        Want::Own
    }
}

fn want_of(t: Gentype, o: Operand) -> Want
    ensures { result ≡ want_of t o }
{
    part_want(t, o.shape)
}

fn is_part(t: Gentype, s: Shape) -> bool
    ensures { result ≡ is_part t s }
{
    s.is_number() || (s.is_vector() && t.element().is_same(type_of(s).element()))
}

fn part_count(s: Shape) -> u8
    ensures { result ≡ part_count s }
{
    if s.is_vector() { type_of(s).count } else { 1 }
}

fn part_wants(alloc: Global, t: Gentype, os: &[Operand]) -> Result<List<Want>, NoMemory>
    ensures { IfOk result (λ ws. ws ≡ part_wants t os.now) }
{
    let mut wants = List::new(alloc);
    for o in os {
        wants.push(want_of(t, *o))?;
    }
    Ok(wants)
}

fn some_no_part(t: Gentype, os: &[Operand]) -> bool
    ensures { result ≡ some_no_part t os.now }
{
    for o in os {
        if !is_part(t, o.shape) {
            return true;
        }
    }
    false
}

fn parts_count(os: &[Operand]) -> u128
    ensures { result ≡ parts_count os.now }
{
    let mut count = 0;
    for o in os {
        count += part_count(o.shape) as u128;
    }
    count
}

fn is_single(os: &[Operand]) -> bool
    ensures { result ≡ is_single os.now }
{
    match os {
        [o] => o.shape.is_number(),
        _ => false,
    }
}

fn vector(alloc: Global, q: Qualified, os: &[Operand]) -> Result<Judged, NoMemory>
    ensures { IfOk result (λ j. j ≡ vector q os.now) }
{
    let t = type_of(q.shape);
    let made = value(part_wants(alloc, t, os)?, Head::Vector, Want::Type(q.ty));
    let all = parts_count(os) == t.count as u128;
    Ok(unless(
        &[
            (303, !q.shape.is_vector()),
            (311, some_no_part(t, os)),
            (326, no_space(q, false)),
            (331, !all && !is_single(os)),
        ],
        made,
    ))
}

/// A vector literal (OpenCL C 1.2, 6.1.6): 303, 311, 326, 331. `star` is as for `cast_rule`.
pub fn literal(
    alloc: Global,
    q: Qualified,
    star: Option<bool>,
    os: &[Operand],
) -> Result<Judged, NoMemory>
    ensures { IfOk result (λ j. j ≡ literal q star os.now) }
{
    match star {
        Some(_) => Ok(Judged::Broken(303)),
        None => vector(alloc, q, os),
    }
}

// ---- `sizeof`

/// Whether an operand has no size that is known (303; C99, 6.5.3.4).
pub fn no_size(o: Operand) -> bool
    ensures { result ≡ no_size o }
{
    o.shape.is_void() || !o.complete
}

/// The least code of a rule that `sizeof` of a type breaks: 303, 326. `star` is as for `cast_rule`.
pub fn size_broken(q: Qualified, star: Option<bool>) -> Option<u16>
    ensures { result ≡ first_broken (size_tests q star) }
{
    match star {
        Some(_) => first_broken(&[(303, is_no_pointee(q.shape)), (326, no_space(q, true))]),
        None => first_broken(&[(303, q.shape.is_void()), (326, no_space(q, false))]),
    }
}
