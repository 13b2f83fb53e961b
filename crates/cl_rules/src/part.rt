//! The rules of `?:`, `[]`, the comma, members and components.

ghost use Rattle.std.specs.Prelude.{◌≡◌, ◌≤◌, drop, length, map, IfOk};
ghost use Rattle.std.specs.List.{list_all};
ghost use Rattle.cl_tree.specs.Facts.{are_below};
ghost use Rattle.cl_rules.specs.Parts.{choice, is_plain, chosen_pointers, chosen_alike, chosen_numbers, chosen, at_index, indexed, comma_at, last_want, comma, letter, digit, named_at, is_named, number_at, named, half_of, half, is_half, spelled, AreFew, within, selection, is_among, repeats, selected, member_from, member_at, member};

use crate::operand::{
    common, component, integers, one, part, place, same_target, seen, three, to_array, type_of,
    unless, value,
};
use crate::operator::{is_outranked, is_unlike, meet, met, own_types};
use crate::rule::{Head, Judged, Made, Meeting, Operand, Want};
use cl_builtins::Gentype;
use cl_tree::Shape;
use cl_types::{Member, TypeId};
use clv_place::{List, NoMemory};
use std::alloc::Global;

// ---- `?:`

fn choice(alloc: Global, want: Want) -> Result<Made, NoMemory>
    ensures { IfOk result (λ m. m ≡ choice want) }
{
    let wants = three(alloc, Want::Own, want, want)?;
    Ok(value(wants, Head::Cond, want))
}

fn is_plain(s: Shape) -> bool
    ensures { result ≡ is_plain s }
{
    s.is_struct() || s.is_void()
}

fn chosen_pointers(alloc: Global, test: Operand, a: Operand, b: Operand) -> Result<Judged, NoMemory>
    ensures { IfOk result (λ j. j ≡ chosen_pointers test a b) }
{
    let made = choice(alloc, Want::Of(common(seen(a), seen(b))))?;
    let no_test = !test.shape.is_number();
    if seen(a).is_pointer() && seen(b).is_pointer() {
        Ok(unless(
            &[
                (303, to_array(a) || to_array(b)),
                (308, !same_target(seen(a), seen(b))),
                (318, no_test),
            ],
            made,
        ))
    } else {
        Ok(unless(&[(308, true), (318, no_test)], made))
    }
}

fn chosen_alike(alloc: Global, test: Operand, a: Operand) -> Result<Judged, NoMemory>
    ensures { IfOk result (λ j. j ≡ chosen_alike test a) }
{
    let made = choice(alloc, Want::Type(a.facts.ty))?;
    Ok(unless(&[(318, !test.shape.is_number())], made))
}

fn chosen_numbers(alloc: Global, test: Operand, m: Meeting) -> Result<Judged, NoMemory>
    ensures { IfOk result (λ j. j ≡ chosen_numbers test m) }
{
    let made = choice(alloc, integers(met(m)))?;
    Ok(unless(
        &[
            (308, is_unlike(m)),
            (309, is_outranked(m)),
            (318, !test.shape.is_number()),
        ],
        made,
    ))
}

/// `?:` (C99, 6.5.15): 303, 308, 309, 318.
pub fn chosen(alloc: Global, test: Operand, a: Operand, b: Operand) -> Result<Judged, NoMemory>
    ensures { IfOk result (λ j. j ≡ chosen test a b) }
{
    if seen(a).is_pointer() || seen(b).is_pointer() {
        chosen_pointers(alloc, test, a, b)
    } else if is_plain(a.shape) && a.facts.ty.0 == b.facts.ty.0 {
        chosen_alike(alloc, test, a)
    } else {
        chosen_numbers(alloc, test, meet(a.shape, b.shape))
    }
}

// ---- `[]` and the comma

fn at_index(alloc: Global, p: Operand, s: Shape, index: Shape) -> Result<Judged, NoMemory>
    ensures { IfOk result (λ j. j ≡ at_index p s index) }
{
    let made = match s {
        Shape::Pointer {
            space,
            to,
            readonly,
            ..
        } => place(
            own_types(alloc)?,
            Head::Index,
            Want::Type(to),
            space,
            readonly,
        ),
        Shape::Array { elem, .. } => part(own_types(alloc)?, Head::Index, Want::Type(elem), p),
        _ => return Ok(Judged::Broken(313)),
    };
    Ok(unless(&[(308, !index.is_number())], made))
}

/// `[]` (C99, 6.5.2.1): 308, 313. None of a vector, whose component with a constant index has a rule of its own.
pub fn indexed(alloc: Global, p: Operand, index: Operand) -> Result<Option<Judged>, NoMemory>
    ensures { IfOk result (λ j. j ≡ indexed p index) }
{
    if p.shape.is_vector() {
        return Ok(None);
    }
    Ok(Some(at_index(alloc, p, p.shape, index.shape)?))
}

fn comma_at(wants: List<Want>, o: Operand) -> Judged
    ensures { result ≡ comma_at wants o }
{
    if o.shape.is_array() && o.facts.lies.is_some() {
        unless(
            &[(303, to_array(o))],
            value(wants, Head::Comma, Want::Of(seen(o))),
        )
    } else {
        Judged::Makes(value(wants, Head::Comma, Want::Type(o.facts.ty)))
    }
}

fn last_want(o: Operand) -> Want
    ensures { result ≡ last_want o }
{
    if o.shape.is_array() && o.facts.lies.is_some() {
        Want::Of(seen(o))
    } else {
        Want::Own
    }
}

/// The comma (C99, 6.5.17): 303. None without operands.
pub fn comma(alloc: Global, os: &[Operand]) -> Result<Option<Judged>, NoMemory>
    ensures { IfOk result (λ j. j ≡ comma os.now) }
{
    let [first, rest @ ..] = os else {
        return Ok(None);
    };
    let mut wants = List::new(alloc);
    let mut last = *first;
    for o in rest {
        wants.push(Want::Own)?;
        last = *o;
    }
    wants.push(last_want(last))?;
    Ok(Some(comma_at(wants, last)))
}

// ---- components

fn letter(c: u8) -> Option<u8>
    ensures { result ≡ letter c }
{
    if c == b'x' {
        Some(0)
    } else if c == b'y' {
        Some(1)
    } else if c == b'z' {
        Some(2)
    } else if c == b'w' {
        Some(3)
    } else {
        None
    }
}

fn digit(c: u8) -> Option<u8>
    ensures { result ≡ digit c }
{
    if c == b'0' {
        Some(0)
    } else if c == b'1' {
        Some(1)
    } else if c == b'2' {
        Some(2)
    } else if c == b'3' {
        Some(3)
    } else {
        None
    }
}

fn named_at(digits: bool, c: u8) -> Option<u8>
    ensures { result ≡ named_at digits c }
{
    if digits { digit(c) } else { letter(c) }
}

fn is_named(digits: bool, c: u8) -> bool
    ensures { result ≡ is_named digits c }
{
    named_at(digits, c).is_some()
}

fn number_at(digits: bool, c: u8) -> u8
    ensures { result ≡ number_at digits c }
{
    match named_at(digits, c) {
        Some(k) => k,
        None => 0,
    }
}

fn are_named(digits: bool, name: &[u8]) -> bool
    ensures { result ≡ list_all (is_named digits) name.now }
{
    for c in name {
        if !is_named(digits, *c) {
            return false;
        }
    }
    true
}

fn numbers(alloc: Global, digits: bool, name: &[u8]) -> Result<List<u8>, NoMemory>
    ensures { IfOk result (λ ks. ks ≡ map (number_at digits) name.now) }
{
    let mut numbers = List::new(alloc);
    for c in name {
        numbers.push(number_at(digits, *c))?;
    }
    Ok(numbers)
}

fn named(alloc: Global, digits: bool, name: &[u8]) -> Result<Option<List<u8>>, NoMemory>
    ensures { IfOk result (λ at. at ≡ named digits name.now) }
{
    if !are_named(digits, name) {
        return Ok(None);
    }
    Ok(Some(numbers(alloc, digits, name)?))
}

fn half_of(alloc: Global, count: u8, alone: u8, first: u8, second: u8) -> Result<List<u8>, NoMemory>
    ensures at { IfOk result (λ at. at ≡ half_of count alone first second) }
    ensures few { IfOk result (λ at. length at ≤ 4) }
{
    let mut at = List::new(alloc);
    if count == 2 {
        at.push(alone)?;
    } else {
        at.push(first)?;
        at.push(second)?;
    }
    Ok(at)
}

fn half(alloc: Global, count: u8, name: &[u8]) -> Result<Option<List<u8>>, NoMemory>
    ensures at { IfOk result (λ at. at ≡ half count name.now) }
    ensures few { IfOk result AreFew }
{
    if name == b"lo".as_slice() {
        Ok(Some(half_of(alloc, count, 0, 0, 1)?))
    } else if name == b"hi".as_slice() {
        Ok(Some(half_of(alloc, count, 1, 2, 3)?))
    } else if name == b"even".as_slice() {
        Ok(Some(half_of(alloc, count, 0, 0, 2)?))
    } else if name == b"odd".as_slice() {
        Ok(Some(half_of(alloc, count, 1, 1, 3)?))
    } else {
        Ok(None)
    }
}

fn is_half(name: &[u8]) -> bool
    ensures { result ≡ is_half name.now }
{
    name == b"lo".as_slice()
        || name == b"hi".as_slice()
        || name == b"even".as_slice()
        || name == b"odd".as_slice()
}

fn spelled(alloc: Global, name: &[u8]) -> Result<Option<List<u8>>, NoMemory>
    ensures { IfOk result (λ at. at ≡ spelled name.now) }
{
    match name {
        [b's', digits @ ..] => {
            if digits.is_empty() {
                named(alloc, false, name)
            } else {
                named(alloc, true, digits)
            }
        }
        _ => named(alloc, false, name),
    }
}

fn are_below(count: u8, at: &[u8]) -> bool
    ensures { result ≡ are_below count at.now }
{
    for k in at {
        if *k >= count {
            return false;
        }
    }
    true
}

fn within(count: u8, at: Option<List<u8>>) -> Option<List<u8>>
    ensures at { result ≡ within count at }
    ensures few { AreFew result }
{
    match at {
        Some(at) => {
            if at.len() > 0 && at.len() <= 4 && are_below(count, at.as_slice()) {
                Some(at)
            } else {
                None
            }
        }
        None => None,
    }
}

/// The components that a name selects of a vector of so many (OpenCL C 1.2, 6.1.7).
pub fn selection(alloc: Global, count: u8, name: &[u8]) -> Result<Option<List<u8>>, NoMemory>
    ensures at { IfOk result (λ at. at ≡ selection count name.now) }
    ensures few { IfOk result AreFew }
{
    if is_half(name) {
        if count == 3 {
            Ok(None)
        } else {
            half(alloc, count, name)
        }
    } else {
        let at = spelled(alloc, name)?;
        Ok(within(count, at))
    }
}

fn is_among(k: u8, at: &[u8]) -> bool
    ensures { result ≡ is_among k at.now }
{
    for other in at {
        if k == *other {
            return true;
        }
    }
    false
}

fn behind(at: &[u8], start: usize) -> &[u8]
    ensures { result.now ≡ drop start at.now }
{
    if start < at.len() { &at[start..] } else { &[] }
}

fn repeats(at: &[u8]) -> bool
    ensures { result ≡ repeats at.now }
{
    for i in 0..at.len() {
        if is_among(at[i], behind(at, i + 1)) {
            return true;
        }
    }
    false
}

// The components that a name selects, on the left of an assignment or not: 307.
fn selected(
    alloc: Global,
    left: bool,
    o: Operand,
    t: Gentype,
    name: &[u8],
) -> Result<Judged, NoMemory>
    ensures { IfOk result (λ j. j ≡ selected left o t (selection t.count name.now)) }
{
    match selection(alloc, t.count, name)? {
        Some(at) => {
            let t = Gentype {
                count: at.len() as u8,
                ..t
            };
            let twice = repeats(at.as_slice());
            let made = component(alloc, Head::Components(at), integers(t), o)?;
            Ok(unless(&[(307, left && twice)], made))
        }
        None => Ok(Judged::Broken(307)),
    }
}

// ---- members

// The first member of a name, with its number.
fn member_from(members: &[Member], name: &[u8]) -> Result<Option<(u32, TypeId)>, NoMemory>
    ensures { IfOk result (λ m. m ≡ member_from 0 name.now members.now) }
{
    for i in 0..members.len() {
        if name == members[i].name.as_slice() {
            let Ok(number) = u32::try_from(i) else {
                return Err(NoMemory);
            };
            return Ok(Some((number, members[i].ty)));
        }
    }
    Ok(None)
}

fn member_at(alloc: Global, o: Operand, found: Option<(u32, TypeId)>) -> Result<Judged, NoMemory>
    ensures { IfOk result (λ j. j ≡ member_at o found) }
{
    match found {
        Some((number, ty)) => Ok(Judged::Makes(part(
            one(alloc, Want::Own)?,
            Head::Member(number),
            Want::Type(ty),
            o,
        ))),
        None => Ok(Judged::Broken(306)),
    }
}

/// A member of an operand that has these, or components of one that is a vector (C99, 6.5.2.3; OpenCL C 1.2,
/// 6.1.7): 306, 307. `left` holds on the left of an assignment.
pub fn member(
    alloc: Global,
    left: bool,
    members: &[Member],
    name: &[u8],
    o: Operand,
) -> Result<Judged, NoMemory>
    ensures { IfOk result (λ j. j ≡ member left members.now name.now o) }
{
    if o.shape.is_vector() {
        selected(alloc, left, o, type_of(o.shape), name)
    } else {
        let found = member_from(members, name)?;
        member_at(alloc, o, found)
    }
}
