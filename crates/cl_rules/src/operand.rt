//! Operands, and the form of a rule.

ghost use Rattle.std.specs.Prelude.{◌≡◌, ◌∷◌, [], IfOk};
ghost use Rattle.cl_rules.specs.Operands.{first_broken, unless, value, place, part, component, integers, seen, to_array, is_nested, same_target, common, adds_const, type_of, is_arithmetic, no_value, no_pointer, type_at};

use crate::rule::{Head, Judged, Made, Operand, Target, Want};
use cl_builtins::Gentype;
use cl_tree::{Shape, same_space};
use cl_types::Space;
use clv_place::{List, NoMemory};
use std::alloc::Global;

/// The least code of a rule that is broken, of rules by ascending code.
pub fn first_broken(tests: &[(u16, bool)]) -> Option<u16>
    ensures { result ≡ first_broken tests.now }
{
    for test in tests {
        if test.1 {
            return Some(test.0);
        }
    }
    None
}

// What is made, unless a rule is broken.
pub(crate) fn unless(tests: &[(u16, bool)], made: Made) -> Judged
    ensures { result ≡ unless tests.now made }
{
    match first_broken(tests) {
        Some(code) => Judged::Broken(code),
        None => Judged::Makes(made),
    }
}

/// A node that is no place: what it wants of its operands, and the type that it gives.
pub fn value(wants: List<Want>, head: Head, gives: Want) -> Made
    ensures { result ≡ value wants head gives }
{
    Made {
        wants,
        head,
        gives,
        lies: None,
        component: false,
        readonly: false,
    }
}

// A node that is a place.
pub(crate) fn place(
    wants: List<Want>,
    head: Head,
    gives: Want,
    space: Space,
    readonly: bool,
) -> Made
    ensures { result ≡ place wants head gives space readonly }
{
    Made {
        wants,
        head,
        gives,
        lies: Some(space),
        component: false,
        readonly,
    }
}

// A part of an operand, which is a place where that is one.
pub(crate) fn part(wants: List<Want>, head: Head, gives: Want, whole: Operand) -> Made
    ensures { result ≡ part wants head gives whole }
{
    Made {
        wants,
        head,
        gives,
        lies: whole.facts.lies,
        component: false,
        readonly: whole.readonly,
    }
}

/// Components of an operand.
pub fn component(alloc: Global, head: Head, gives: Want, whole: Operand) -> Result<Made, NoMemory>
    ensures { IfOk result (λ m. m ≡ component head gives whole) }
{
    let wants = one(alloc, Want::Own)?;
    Ok(Made {
        wants,
        head,
        gives,
        lies: whole.facts.lies,
        component: true,
        readonly: whole.readonly,
    })
}

// Integers of this type.
pub(crate) fn integers(t: Gentype) -> Want
    ensures { result ≡ integers t }
{
    Want::Of(Shape::Integers(t))
}

pub(crate) fn one(alloc: Global, want: Want) -> Result<List<Want>, NoMemory>
    ensures { IfOk result (λ ws. ws ≡ want ∷ []) }
{
    let mut wants = List::new(alloc);
    wants.push(want)?;
    Ok(wants)
}

pub(crate) fn two(alloc: Global, first: Want, second: Want) -> Result<List<Want>, NoMemory>
    ensures { IfOk result (λ ws. ws ≡ first ∷ second ∷ []) }
{
    let mut wants = List::new(alloc);
    wants.push(first)?;
    wants.push(second)?;
    Ok(wants)
}

pub(crate) fn three(
    alloc: Global,
    first: Want,
    second: Want,
    third: Want,
) -> Result<List<Want>, NoMemory>
    ensures { IfOk result (λ ws. ws ≡ first ∷ second ∷ third ∷ []) }
{
    let mut wants = List::new(alloc);
    wants.push(first)?;
    wants.push(second)?;
    wants.push(third)?;
    Ok(wants)
}

/// What an operand is where a value is wanted: an array that is a place stands for a pointer to its first element
/// (C99, 6.3.2.1).
pub fn seen(o: Operand) -> Shape
    ensures { result ≡ seen o }
{
    match (o.facts.lies, o.shape) {
        (Some(space), Shape::Array { elem, .. }) => Shape::Pointer {
            space,
            to: elem,
            readonly: o.readonly,
            restricted: false,
        },
        _ => o.shape,
    }
}

fn is_nested(s: Shape) -> bool
    ensures { result ≡ is_nested s }
{
    match s {
        Shape::Array { nested, .. } => nested,
        _ => false,
    }
}

/// Whether an operand would stand for a pointer to an array.
pub fn to_array(o: Operand) -> bool
    ensures { result ≡ to_array o }
{
    o.facts.lies.is_some() && is_nested(o.shape)
}

// Whether both are pointers to one type, in one address space.
pub(crate) fn same_target(p: Shape, q: Shape) -> bool
    ensures { result ≡ same_target p q }
{
    match (p, q) {
        (
            Shape::Pointer { space, to, .. },
            Shape::Pointer {
                space: other,
                to: own,
                ..
            },
        ) => same_space(space, other) && to.0 == own.0,
        _ => false,
    }
}

// The type of two pointers that meet.
pub(crate) fn common(p: Shape, q: Shape) -> Shape
    ensures { result ≡ common p q }
{
    match (p, q) {
        (
            Shape::Pointer {
                space,
                to,
                readonly,
                restricted,
            },
            Shape::Pointer {
                readonly: fixed,
                restricted: alone,
                ..
            },
        ) => Shape::Pointer {
            space,
            to,
            readonly: readonly || fixed,
            restricted: restricted && alone,
        },
        _ => p,
    }
}

// Whether a pointer converts to another one, which may be const besides.
fn adds_const(p: Shape, q: Shape) -> bool
    ensures { result ≡ adds_const p q }
{
    match (p, q) {
        (
            Shape::Pointer {
                space,
                to,
                readonly,
                ..
            },
            Shape::Pointer {
                space: other,
                to: own,
                readonly: fixed,
                ..
            },
        ) => same_space(space, other) && to.0 == own.0 && (fixed || !readonly),
        _ => false,
    }
}

/// The integer type of an operand, or `int` where it has none.
pub fn type_of(s: Shape) -> Gentype
    ensures { result ≡ type_of s }
{
    match s.arithmetic() {
        Some(t) => t,
        None => Gentype::int(),
    }
}

pub(crate) fn is_arithmetic(s: Shape) -> bool
    ensures { result ≡ is_arithmetic s }
{
    s.arithmetic().is_some()
}

/// Whether an operand doesn't convert by itself to a type that is wanted (311). Between pointers `no_pointer` says.
pub fn no_value(o: Operand, t: Target) -> bool
    ensures { result ≡ no_value o t }
{
    if t.shape.is_pointer() {
        !seen(o).is_pointer()
    } else {
        !o.shape.converts(o.facts.ty, t.shape, t.ty)
    }
}

/// Whether a pointer doesn't convert by itself to a pointer that is wanted (333).
pub fn no_pointer(o: Operand, t: Target) -> bool
    ensures { result ≡ no_pointer o t }
{
    t.shape.is_pointer() && seen(o).is_pointer() && !adds_const(seen(o), t.shape)
}

pub(crate) fn type_at(o: Operand) -> Target
    ensures { result ≡ type_at o }
{
    Target {
        ty: o.facts.ty,
        shape: o.shape,
    }
}
