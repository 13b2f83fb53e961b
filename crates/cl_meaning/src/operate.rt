//! Operations on what was evaluated.

ghost use Rattle.std.specs.Prelude.{◌≡◌, ◌∷◌, if◌then◌else◌, IfOk, List, None, OnOk, Some, drop, get_or, int_div, map, option_copied, option_map, pos, slice_index, take};
ghost use Rattle.cl_common.specs.Operators.{each_from};
ghost use Rattle.cl_meaning.specs.Operations.{Address, Apply, Compare, Components, Convert, DropSecond, Element, Elements, Fill, Follow, Keep, Offset, Part, Select, Slice, Sure, Swap, Unary, Vector, and_place, and_pointer, compared, components, converted, directed, element, newest, operated, selected};
ghost use Rattle.cl_meaning.specs.Values.{Pattern, Value, patterns, patterns_in};
ghost use Rattle.cl_meaning.specs.Views.{number_in, pointer_in};
ghost use Rattle.cl_types.specs.declared.types.ClType.{ClType};
ghost use Rattle.clv_num.specs.Numbers.{pattern_of};

use crate::applied::applied;
use crate::entry::{Entry, Scalar, copied_scalars, patterns_in, patterns_of_all, value_of};
use crate::filling::filled;
use crate::layouts::Layouts;
use crate::numbers;
use crate::operation::Operation;
use crate::pointer::{Amount, Pointer, amount_in};
use crate::stack::Stack;
use crate::wide::{WideShape, WideType};
use cl_builtins::Gentype;
use cl_constants::component::component;
use cl_types::{BinOp, Builtin, TypeId, UnOp};
use clv_place::{List, NoMemory};
use std::alloc::Global;

type Entries = Stack<Entry>;

fn drop_second(stack: &mut Entries) -> Result<(), NoMemory>
    ensures { OnOk result ((cs : List ClType) → operated cs (DropSecond) stack.old ≡ Some stack.new) }
{
    let Some(newest) = stack.pop() else {
        return Ok(());
    };
    let _second = stack.pop();
    stack.push(newest)
}

fn swap(stack: &mut Entries) -> Result<(), NoMemory>
    ensures { OnOk result ((cs : List ClType) → operated cs (Swap) stack.old ≡ Some stack.new) }
{
    let Some(a) = stack.pop() else {
        return Ok(());
    };
    let Some(b) = stack.pop() else {
        return stack.push(a);
    };
    stack.push(a)?;
    stack.push(b)
}

fn keep(alloc: Global, stack: &mut Entries) -> Result<(), NoMemory>
    ensures { OnOk result ((cs : List ClType) → operated cs (Keep) stack.old ≡ Some stack.new) }
{
    let Some(a) = stack.pop() else {
        return Ok(());
    };
    let Some(b) = stack.pop() else {
        return stack.push(a);
    };
    stack.push(a.copied(alloc)?)?;
    stack.push(b)?;
    stack.push(a)
}

// Whether the newest entry is there.
fn is_sure(stack: &Entries) -> bool
    ensures { (cs : List ClType) → operated cs Sure stack.now ≡ (if result then Some stack.now else None) }
{
    match stack.top() {
        Some(Entry::Missing) => false,
        _ => true,
    }
}

// The pointer that a value is.
fn pointer_in(alloc: Global, v: &[Scalar]) -> Result<Option<Pointer>, NoMemory>
    ensures { IfOk result (λ p. p ≡ pointer_in v.now) }
{
    match v {
        [Scalar::Points(p)] => Ok(Some(p.copied(alloc)?)),
        _ => Ok(None),
    }
}

// The number that a value is.
fn number_in(v: &[Scalar]) -> Option<u64>
    ensures { result ≡ number_in v.now }
{
    match v {
        [Scalar::Pattern(n)] => Some(*n),
        _ => None,
    }
}

fn follow(alloc: Global, stack: &mut Entries) -> Result<(), NoMemory>
    ensures { OnOk result ((cs : List ClType) → operated cs (Follow) stack.old ≡ Some stack.new) }
{
    let Some(entry) = stack.pop() else {
        return Ok(());
    };
    match pointer_in(alloc, entry.scalars())? {
        Some(p) => stack.push(Entry::Place(p, None)),
        None => stack.push(entry),
    }
}

fn address(alloc: Global, stack: &mut Entries) -> Result<(), NoMemory>
    ensures { OnOk result ((cs : List ClType) → operated cs (Address) stack.old ≡ Some stack.new) }
{
    let Some(entry) = stack.pop() else {
        return Ok(());
    };
    match entry {
        Entry::Place(p, _) => stack.push(Entry::pointer(alloc, p)?),
        _ => stack.push(entry),
    }
}

// Puts an entry there, where it is defined.
fn and(stack: &mut Entries, entry: Option<Entry>) -> Result<bool, NoMemory>
    ensures { IfOk result (λ defined. option_map (λ e. e ∷ stack.old) entry ≡ (if defined then Some stack.new else None)) }
{
    match entry {
        Some(entry) => {
            stack.push(entry)?;
            Ok(true)
        }
        None => Ok(false),
    }
}

fn and_place(
    stack: &mut Entries,
    p: Option<Pointer>,
    at: Option<List<u8>>,
) -> Result<bool, NoMemory>
    ensures { IfOk result (λ defined. and_place stack.old at p ≡ (if defined then Some stack.new else None)) }
{
    match p {
        Some(p) => and(stack, Some(Entry::Place(p, at))),
        None => Ok(false),
    }
}

fn and_pointer(alloc: Global, stack: &mut Entries, p: Option<Pointer>) -> Result<bool, NoMemory>
    ensures { IfOk result (λ defined. and_pointer stack.old p ≡ (if defined then Some stack.new else None)) }
{
    match p {
        Some(p) => and(stack, Some(Entry::pointer(alloc, p)?)),
        None => Ok(false),
    }
}

fn part(stack: &mut Entries, whole: u32, far: u32, bytes: u32) -> Result<bool, NoMemory>
    ensures { IfOk result (λ defined. (cs : List ClType) → operated cs (Part whole far bytes) stack.old ≡ (if defined then Some stack.new else None)) }
{
    let Some(entry) = stack.pop() else {
        return Ok(true);
    };
    match entry {
        Entry::Place(p, _) => and_place(stack, p.part_of(whole, far, bytes), None),
        _ => and(stack, Some(entry)),
    }
}

// A selected component; 0 where there is none.
fn selected_at(old: &[u8], k: u8) -> u8
    ensures { result ≡ slice_index old.now k }
{
    let k = k as usize;
    if k < old.len() { old[k] } else { 0 }
}

fn selected_of(alloc: Global, at: &[u8], old: &[u8]) -> Result<List<u8>, NoMemory>
    ensures { IfOk result (λ ks. ks ≡ map (slice_index old.now) at.now) }
{
    let mut made = Vec::new(alloc);
    for k in at {
        made.push(selected_at(old, *k))?;
    }
    Ok(List::from_vec(made))
}

// Components of components.
fn selected(alloc: Global, at: List<u8>, old: Option<List<u8>>) -> Result<List<u8>, NoMemory>
    ensures { IfOk result (λ ks. ks ≡ selected at old) }
{
    match old {
        Some(old) => selected_of(alloc, at.as_slice(), old.as_slice()),
        None => Ok(at),
    }
}

fn select(alloc: Global, stack: &mut Entries, at: List<u8>) -> Result<(), NoMemory>
    ensures { OnOk result ((cs : List ClType) → operated cs (Select at) stack.old ≡ Some stack.new) }
{
    let Some(entry) = stack.pop() else {
        return Ok(());
    };
    match entry {
        Entry::Place(p, old) => stack.push(Entry::Place(p, Some(selected(alloc, at, old)?))),
        _ => stack.push(entry),
    }
}

fn directed(op: BinOp, by: Amount) -> Amount
    ensures { result ≡ directed op by }
{
    match op {
        BinOp::Sub => by.opposite(),
        _ => by,
    }
}

fn offset(
    alloc: Global,
    stack: &mut Entries,
    op: BinOp,
    index: WideShape,
    size: u32,
) -> Result<bool, NoMemory>
    ensures { IfOk result (λ defined. (cs : List ClType) → operated cs (Offset op index size) stack.old ≡ (if defined then Some stack.new else None)) }
{
    let Some(newest) = stack.pop() else {
        return Ok(true);
    };
    let Some(second) = stack.pop() else {
        return and(stack, Some(newest));
    };
    match (
        number_in(newest.scalars()),
        pointer_in(alloc, second.scalars())?,
    ) {
        (Some(i), Some(p)) => {
            let by = directed(op, amount_in(index, i));
            and_pointer(alloc, stack, p.moved(by, size))
        }
        _ => {
            stack.push(second)?;
            and(stack, Some(newest))
        }
    }
}

// The distance in elements, an int; of a comparison 1 or 0.
fn compared(op: BinOp, size: u32, p: &Pointer, q: &Pointer) -> u64
    ensures { result ≡ compared op size p.now q.now }
{
    match op {
        BinOp::Sub => distance(size, p.offset as i64 - q.offset as i64),
        _ => {
            let place = Gentype {
                bits: 64,
                signed: false,
                count: 1,
            };
            match component(op, place, p.offset as u64, q.offset as u64) {
                Some(n) => n,
                None => 0,
            }
        }
    }
}

fn distance(size: u32, bytes: i64) -> u64
    ensures { result ≡ pattern_of 32 (int_div bytes (pos size)) }
{
    let elements = if size == 0 { 0 } else { bytes / size as i64 };
    numbers::cut(32, elements.cast_unsigned())
}

fn compare(alloc: Global, stack: &mut Entries, op: BinOp, size: u32) -> Result<bool, NoMemory>
    ensures { IfOk result (λ defined. (cs : List ClType) → operated cs (Compare op size) stack.old ≡ (if defined then Some stack.new else None)) }
{
    let Some(newest) = stack.pop() else {
        return Ok(true);
    };
    let Some(second) = stack.pop() else {
        return and(stack, Some(newest));
    };
    match (newest.scalars(), second.scalars()) {
        ([Scalar::Points(q)], [Scalar::Points(p)]) => {
            if !p.is_in_array_of(q) {
                return Ok(false);
            }
            and(stack, Some(Entry::number(alloc, compared(op, size, p, q))?))
        }
        _ => {
            stack.push(second)?;
            and(stack, Some(newest))
        }
    }
}

// The numbers below n.
#[tactic(auto, using(crate::proofs::Operating::first))]
fn first_numbers(alloc: Global, n: u8) -> Result<List<u8>, NoMemory>
    ensures { IfOk result (λ ks. ks ≡ each_from (λ i. i) 0 n) }
{
    let mut ks = Vec::new(alloc);
    for k in 0..n {
        ks.push(k)?;
    }
    Ok(List::from_vec(ks))
}

fn elements(alloc: Global, stack: &mut Entries, n: u8, size: u32) -> Result<bool, NoMemory>
    ensures { IfOk result (λ defined. (cs : List ClType) → operated cs (Elements n size) stack.old ≡ (if defined then Some stack.new else None)) }
{
    let Some(newest) = stack.pop() else {
        return Ok(true);
    };
    let Some(second) = stack.pop() else {
        return and(stack, Some(newest));
    };
    match (
        pointer_in(alloc, newest.scalars())?,
        number_in(second.scalars()),
    ) {
        (Some(p), Some(k)) => {
            let by = (k as u128 * n as u128 % 4294967296) as u64;
            let at = first_numbers(alloc, n)?;
            and_place(stack, p.moved(Amount::Forth(by), size), Some(at))
        }
        _ => {
            stack.push(second)?;
            and(stack, Some(newest))
        }
    }
}

// A pointer stays as it is.
fn converted(alloc: Global, from: WideShape, to: WideShape, v: &[Scalar]) -> Result<Entry, NoMemory>
    ensures { IfOk result (λ e. e ≡ Value (converted from to v.now)) }
{
    match v {
        [Scalar::Points(p)] => Entry::pointer(alloc, p.copied(alloc)?),
        _ => {
            let ns = numbers::converted(alloc, from, to, patterns_in(alloc, v)?.as_slice())?;
            value_of(alloc, ns.as_slice())
        }
    }
}

fn convert(
    alloc: Global,
    stack: &mut Entries,
    from: WideShape,
    to: WideShape,
) -> Result<(), NoMemory>
    ensures { OnOk result ((cs : List ClType) → operated cs (Convert from to) stack.old ≡ Some stack.new) }
{
    let Some(entry) = stack.pop() else {
        return Ok(());
    };
    match entry {
        Entry::Value(v) => stack.push(converted(alloc, from, to, v.as_slice())?),
        _ => stack.push(entry),
    }
}

fn unary(alloc: Global, stack: &mut Entries, op: UnOp, operand: WideType) -> Result<(), NoMemory>
    ensures { OnOk result ((cs : List ClType) → operated cs (Unary op operand) stack.old ≡ Some stack.new) }
{
    let Some(entry) = stack.pop() else {
        return Ok(());
    };
    match entry {
        Entry::Value(v) => {
            let ns = patterns_in(alloc, v.as_slice())?;
            let made = numbers::unaries(alloc, op, operand, ns.as_slice())?;
            stack.push(value_of(alloc, made.as_slice())?)
        }
        _ => stack.push(entry),
    }
}

// So many scalars from one on, or fewer where there aren't so many.
fn sliced(v: &[Scalar], from: usize, count: usize) -> &[Scalar]
    ensures { result.now ≡ take count (drop from v.now) }
{
    let behind = if from < v.len() { &v[from..] } else { &[] };
    if count < behind.len() {
        &behind[..count]
    } else {
        behind
    }
}

fn slice(alloc: Global, stack: &mut Entries, from: usize, count: usize) -> Result<(), NoMemory>
    ensures { OnOk result ((cs : List ClType) → operated cs (Slice from count) stack.old ≡ Some stack.new) }
{
    let Some(entry) = stack.pop() else {
        return Ok(());
    };
    match entry {
        Entry::Value(v) => {
            let part = copied_scalars(alloc, sliced(v.as_slice(), from, count))?;
            stack.push(Entry::Value(part))
        }
        _ => stack.push(entry),
    }
}

fn component_at(alloc: Global, v: &[Scalar], k: u8) -> Result<Scalar, NoMemory>
    ensures { IfOk result (λ s. s ≡ get_or v.now k (Pattern 0)) }
{
    match v.get(k as usize) {
        Some(scalar) => scalar.copied(alloc),
        None => Ok(Scalar::Pattern(0)),
    }
}

fn components_at(alloc: Global, at: &[u8], v: &[Scalar]) -> Result<List<Scalar>, NoMemory>
    ensures { IfOk result (λ made. made ≡ components at.now v.now) }
{
    let mut made = Vec::new(alloc);
    for k in at {
        made.push(component_at(alloc, v, *k)?)?;
    }
    Ok(List::from_vec(made))
}

fn components(alloc: Global, stack: &mut Entries, at: List<u8>) -> Result<(), NoMemory>
    ensures { OnOk result ((cs : List ClType) → operated cs (Components at) stack.old ≡ Some stack.new) }
{
    let Some(entry) = stack.pop() else {
        return Ok(());
    };
    match entry {
        Entry::Value(v) => {
            let made = components_at(alloc, at.as_slice(), v.as_slice())?;
            stack.push(Entry::Value(made))
        }
        _ => stack.push(entry),
    }
}

// The element at an index, which must be inside. An offset that memory holds no value for has nothing there.
fn element_in(v: &[Scalar], count: usize, len: u32, by: Amount) -> Option<&[Scalar]>
    ensures { option_copied result ≡ element count len v.now by }
{
    match by {
        Amount::Forth(i) if i < len as u64 => match (i as usize).checked_mul(count) {
            Some(from) => Some(sliced(v, from, count)),
            None => Some(&[]),
        },
        _ => None,
    }
}

fn element(
    alloc: Global,
    stack: &mut Entries,
    index: WideShape,
    count: usize,
    len: u32,
) -> Result<bool, NoMemory>
    ensures { IfOk result (λ defined. (cs : List ClType) → operated cs (Element index count len) stack.old ≡ (if defined then Some stack.new else None)) }
{
    let Some(newest) = stack.pop() else {
        return Ok(true);
    };
    let Some(second) = stack.pop() else {
        return and(stack, Some(newest));
    };
    match (number_in(newest.scalars()), second) {
        (Some(i), Entry::Value(v)) => {
            match element_in(v.as_slice(), count, len, amount_in(index, i)) {
                Some(part) => and(stack, Some(Entry::Value(copied_scalars(alloc, part)?))),
                None => Ok(false),
            }
        }
        (_, second) => {
            stack.push(second)?;
            and(stack, Some(newest))
        }
    }
}

// The patterns of the values of the n newest entries, the newest last.
fn newest_patterns(alloc: Global, stack: &Entries, n: usize) -> Result<Vec<List<u64>>, NoMemory>
    ensures { IfOk result (λ nss. nss.items ≡ map patterns_in (newest n stack.now)) }
{
    patterns_of_all(alloc, stack.newest(n))
}

// A value in place of so many entries.
fn replace(alloc: Global, stack: &mut Entries, count: usize, ns: &[u64]) -> Result<(), NoMemory>
    ensures { OnOk result (stack.new ≡ Value (patterns ns.now) ∷ drop count stack.old) }
{
    stack.drop_newest(count);
    stack.push(value_of(alloc, ns)?)
}

fn vector(alloc: Global, stack: &mut Entries, parts: usize, count: usize) -> Result<(), NoMemory>
    ensures { OnOk result ((cs : List ClType) → operated cs (Vector parts count) stack.old ≡ Some stack.new) }
{
    let nss = newest_patterns(alloc, stack, parts)?;
    let all = numbers::joined(alloc, &nss)?;
    let ns = numbers::repeated(alloc, count, all.as_slice())?;
    replace(alloc, stack, parts, ns.as_slice())
}

fn fill(
    alloc: Global,
    layouts: &Layouts<'_>,
    stack: &mut Entries,
    types: &[TypeId],
    ty: TypeId,
) -> Result<(), NoMemory>
    ensures { OnOk result (operated layouts.now (Fill types.now ty) stack.old ≡ Some stack.new) }
{
    let nss = newest_patterns(alloc, stack, types.len())?;
    let ns = filled(alloc, layouts, ty, types, &nss)?;
    replace(alloc, stack, types.len(), ns.as_slice())
}

fn apply(
    alloc: Global,
    stack: &mut Entries,
    function: Builtin,
    args: usize,
    from: WideType,
    to: WideType,
) -> Result<(), NoMemory>
    ensures { OnOk result ((cs : List ClType) → operated cs (Apply function args from to) stack.old ≡ Some stack.new) }
{
    let nss = newest_patterns(alloc, stack, args)?;
    let ns = applied(alloc, function, from, to, &nss)?;
    replace(alloc, stack, args, ns.as_slice())
}

/// Does an operation, and says whether it is defined. An operation to which the entries don't belong, which no unit
/// has, does nothing.
pub fn operate(
    alloc: Global,
    layouts: &Layouts<'_>,
    op: Operation,
    stack: &mut Entries,
) -> Result<bool, NoMemory>
    ensures { IfOk result (λ defined. operated layouts.now op stack.old ≡ (if defined then Some stack.new else None)) }
{
    match op {
        Operation::Push(entry) => stack.push(entry)?,
        Operation::Drop => stack.drop_newest(1),
        Operation::DropSecond => drop_second(stack)?,
        Operation::Swap => swap(stack)?,
        Operation::Keep => keep(alloc, stack)?,
        Operation::Sure => return Ok(is_sure(stack)),
        Operation::Follow => follow(alloc, stack)?,
        Operation::Address => address(alloc, stack)?,
        Operation::Part { whole, far, bytes } => return part(stack, whole, far, bytes),
        Operation::Select(at) => select(alloc, stack, at)?,
        Operation::Offset { op, index, size } => return offset(alloc, stack, op, index, size),
        Operation::Compare { op, size } => return compare(alloc, stack, op, size),
        Operation::Elements { n, size } => return elements(alloc, stack, n, size),
        Operation::Convert { from, to } => convert(alloc, stack, from, to)?,
        Operation::Unary { op, operand } => unary(alloc, stack, op, operand)?,
        Operation::Slice { from, count } => slice(alloc, stack, from, count)?,
        Operation::Components(at) => components(alloc, stack, at)?,
        Operation::Element { index, count, len } => {
            return element(alloc, stack, index, count, len);
        }
        Operation::Vector { parts, count } => vector(alloc, stack, parts, count)?,
        Operation::Fill { types, ty } => fill(alloc, layouts, stack, types.as_slice(), ty)?,
        Operation::Apply {
            function,
            args,
            from,
            to,
        } => apply(alloc, stack, function, args, from, to)?,
    }
    Ok(true)
}
