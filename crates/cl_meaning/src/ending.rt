//! What is done behind the operands of an expression, once these are evaluated (C99, 6.5; OpenCL C 1.2, 6.3 and 6.12).

ghost use Rattle.cl_meaning.specs.declared.code.Expr.{out-Expr};
ghost use Rattle.std.specs.Prelude.{◌≡◌, ◌+◌, ◌++◌, ◌∷◌, [], if◌then◌else◌, IfOk, None, OnOk, length, map, replicate, take};
ghost use Rattle.cl_common.specs.Operators.{each_from, gentype_at};
ghost use Rattle.cl_common.specs.Types.{count_at, elements_in, member_types, promoted_in, size_at};
ghost use Rattle.cl_meaning.specs.Endings.{address_end, applied_end, array_end, atomic_end, built_in_end, call_end, element_end, fence_end, member_end, moved_end, postfix_end, prefix_end, recalled, updated_end, vector_load_end, vector_store_end, vector_written, work_item_end};
ghost use Rattle.cl_meaning.specs.Expressions.{calculated, calculates, changes, copied, element_bytes, first_element, first_gentype, further, is_call, of_variable, offset, one_further, ones, operand_of, pointee_size, points, reads, shape_at, total, types_of, writes};
ghost use Rattle.cl_meaning.specs.Operations.{Address, Compare, Components, Convert, Drop, DropSecond, Fill, Keep, Push, Select, Slice, Sure, Swap, Unary, Vector};
ghost use Rattle.cl_meaning.specs.Tasks.{Choose, Component, Pass, Point, Quiet, Read, Recall, Step, Unless, Variable, Wait, Write, making, quiet, step, steps};
ghost use Rattle.cl_meaning.specs.Values.{InShared, Pattern, Place, Value, whole_of};
ghost use Rattle.cl_meaning.specs.Views.{act_by, expr_by, marked, tasks_by};
ghost use Rattle.cl_tree.specs.Constants.{gentype_in};
ghost use Rattle.cl_tree.specs.Shapes.{members_of, shape_of};

use crate::code::{Expr, Node};
use crate::entry::{Entry, Scalar, copied_components};
use crate::layouts::Layouts;
use crate::operation::Operation;
use crate::pointer::{Object, Pointer};
use crate::task::{Act, Mark, Task, Tasks, making, quiet, step, steps};
use crate::wide::{WideShape, WideType};
use cl_tree::{Shape, Shared};
use cl_types::{BinOp, Builtin, Member, TypeId, UnOp};
use clv_place::{List, NoMemory};
use std::alloc::Global;

// ---- operands

/// Whether an operand is a pointer.
pub fn points(types: &Layouts<'_>, a: &Expr) -> bool
    ensures { result ≡ points types.now (operand_of types.now (expr_by a.now)) }
{
    types.shape(a.ty).shape().is_pointer()
}

/// Whether a node is a call of a function of the unit.
fn is_call(node: &Node) -> bool
    ensures { result ≡ is_call node.now }
{
    match node {
        Node::Call(_) => true,
        _ => false,
    }
}

/// The value of a call may be missing, where the function fell off its end (C99, 6.9.1).
pub fn sure<'a>(node: &Node, out: &mut Tasks<'a>) -> Result<(), NoMemory>
    ensures { OnOk result (tasks_by out.new.items ≡ tasks_by out.old.items ++ (if is_call node.now then quiet Sure ∷ [] else [])) }
{
    if is_call(node) {
        quiet(out, Operation::Sure)
    } else {
        Ok(())
    }
}

/// A place that is named, and not read, takes a step.
pub fn pass<'a>(out: &mut Tasks<'a>) -> Result<(), NoMemory>
    ensures { OnOk result (tasks_by out.new.items ≡ tasks_by out.old.items ++ Step Pass ∷ []) }
{
    out.push(Task::Step(Act::Pass))?;
    Ok(())
}

/// A node that has its scalars from an operand makes one step at least.
pub fn copied<'a>(types: &Layouts<'_>, ty: TypeId, out: &mut Tasks<'a>) -> Result<(), NoMemory>
    ensures { OnOk result (tasks_by out.new.items ≡ tasks_by out.old.items ++ copied types.now ty) }
{
    steps(out, types.count(ty).max(1))
}

// How many scalars the values of these types have. No value that memory holds has more than a number counts.
#[tactic(auto, using(crate::proofs::OneByOne::operands_counted))]
fn total(types: &Layouts<'_>, operands: &[Expr]) -> Result<usize, NoMemory>
    ensures { IfOk result (λ n. n ≡ total types.now (types_of (map (λ e. operand_of types.now (expr_by e)) operands.now))) }
{
    let mut sum = 0usize;
    for operand in operands {
        match sum.checked_add(types.count(operand.ty)) {
            Some(next) => sum = next,
            None => return Err(NoMemory),
        }
    }
    Ok(sum)
}

// The scalars of the operands are passed.
fn passed<'a>(types: &Layouts<'_>, operands: &[Expr], out: &mut Tasks<'a>) -> Result<(), NoMemory>
    ensures { OnOk result (tasks_by out.new.items ≡ tasks_by out.old.items ++ steps (total types.now (types_of (map (λ e. operand_of types.now (expr_by e)) operands.now)))) }
{
    steps(out, total(types, operands)?)
}

// ---- places

/// An array that is a place stands for a pointer to its first element (C99, 6.3.2.1); to the place of the element.
pub fn first_element<'a>(
    types: &Layouts<'_>,
    ty: TypeId,
    out: &mut Tasks<'a>,
) -> Result<(), NoMemory>
    ensures { OnOk result (tasks_by out.new.items ≡ tasks_by out.old.items ++ first_element types.now ty ∷ []) }
{
    let size = types.size(ty);
    quiet(
        out,
        Operation::Part {
            whole: size,
            far: 0,
            bytes: size,
        },
    )
}

/// To the pointer to the first element.
pub fn address<'a>(types: &Layouts<'_>, ty: TypeId, out: &mut Tasks<'a>) -> Result<(), NoMemory>
    ensures { OnOk result (tasks_by out.new.items ≡ tasks_by out.old.items ++ address_end types.now ty) }
{
    first_element(types, ty, out)?;
    step(out, Operation::Address)
}

/// p[i] is *(p + i), and an array stands for its pointer once the index is evaluated (C99, 6.5.2.1).
pub fn further<'a>(
    types: &Layouts<'_>,
    i: &Expr,
    ty: TypeId,
    out: &mut Tasks<'a>,
) -> Result<(), NoMemory>
    ensures { OnOk result (tasks_by out.new.items ≡ tasks_by out.old.items ++ further types.now (operand_of types.now (expr_by i.now)) ty) }
{
    quiet(
        out,
        Operation::Offset {
            op: BinOp::Add,
            index: types.shape(i.ty),
            size: types.size(ty),
        },
    )?;
    quiet(out, Operation::Follow)
}

/// With an array, the stack is: its place, the index; the index, its place; the index, the element; the element, the
/// index.
pub fn in_array<'a>(
    types: &Layouts<'_>,
    a: &Expr,
    i: &Expr,
    ty: TypeId,
    out: &mut Tasks<'a>,
) -> Result<(), NoMemory>
    ensures { OnOk result (tasks_by out.new.items ≡ tasks_by out.old.items ++ array_end types.now (operand_of types.now (expr_by a.now)).ty (operand_of types.now (expr_by i.now)) ty) }
{
    quiet(out, Operation::Swap)?;
    first_element(types, a.ty, out)?;
    quiet(out, Operation::Address)?;
    quiet(out, Operation::Swap)?;
    further(types, i, ty, out)
}

/// The place of a variable or parameter in private memory.
pub fn variable<'a>(
    types: &Layouts<'_>,
    is_param: bool,
    k: u32,
    ty: TypeId,
    out: &mut Tasks<'a>,
) -> Result<(), NoMemory>
    ensures { OnOk result (tasks_by out.new.items ≡ tasks_by out.old.items ++ Quiet (Variable is_param k (size_at types.now ty)) ∷ []) }
{
    let size = types.size(ty);
    out.push(Task::Quiet(Act::Variable { is_param, k, size }))?;
    Ok(())
}

/// The place of an object in shared memory.
pub fn in_shared<'a>(
    types: &Layouts<'_>,
    object: Shared,
    ty: TypeId,
    out: &mut Tasks<'a>,
) -> Result<(), NoMemory>
    ensures { OnOk result (tasks_by out.new.items ≡ tasks_by out.old.items ++ quiet (Push (Place (whole_of (InShared object) (size_at types.now ty)) None)) ∷ []) }
{
    let whole = Pointer::whole_of(Object::InShared(object), types.size(ty));
    quiet(out, Operation::Push(Entry::Place(whole, None)))
}

/// A member of a struct's place.
pub fn member<'a>(
    types: &Layouts<'_>,
    k: u32,
    a: &Expr,
    ty: TypeId,
    out: &mut Tasks<'a>,
) -> Result<(), NoMemory>
    ensures { OnOk result (tasks_by out.new.items ≡ tasks_by out.old.items ++ member_end types.now k (operand_of types.now (expr_by a.now)).ty ty ∷ []) }
{
    quiet(
        out,
        Operation::Part {
            whole: types.size(a.ty),
            far: types.offset(a.ty, k),
            bytes: types.size(ty),
        },
    )
}

/// Components of a vector's place.
pub fn selection<'a>(alloc: Global, at: &List<u8>, out: &mut Tasks<'a>) -> Result<(), NoMemory>
    ensures { OnOk result (tasks_by out.new.items ≡ tasks_by out.old.items ++ quiet (Select at.now) ∷ []) }
{
    quiet(out, Operation::Select(copied_components(alloc, at)?))
}

// ---- scalars one by one

fn scalars_read<'a>(
    mark: Mark,
    ty: TypeId,
    count: usize,
    out: &mut Tasks<'a>,
) -> Result<(), NoMemory>
    ensures { OnOk result (tasks_by out.new.items ≡ tasks_by out.old.items ++ each_from (λ k. marked mark (Read ty k)) 0 count) }
{
    for k in 0..count {
        out.push(mark.task(Act::Read { ty, k }))?;
    }
    Ok(())
}

/// What stands at the newest place: its scalars are put together above it.
pub fn reads<'a>(
    alloc: Global,
    types: &Layouts<'_>,
    mark: Mark,
    ty: TypeId,
    out: &mut Tasks<'a>,
) -> Result<(), NoMemory>
    ensures { OnOk result (tasks_by out.new.items ≡ tasks_by out.old.items ++ reads types.now (marked mark) ty) }
{
    quiet(out, Operation::Push(Entry::void(alloc)))?;
    scalars_read(mark, ty, types.count(ty), out)
}

/// The value of the newest place, in its stead.
pub fn loaded<'a>(
    alloc: Global,
    types: &Layouts<'_>,
    ty: TypeId,
    out: &mut Tasks<'a>,
) -> Result<(), NoMemory>
    ensures { OnOk result (tasks_by out.new.items ≡ tasks_by out.old.items ++ reads types.now Step ty ++ quiet DropSecond ∷ []) }
{
    reads(alloc, types, Mark::Step, ty, out)?;
    quiet(out, Operation::DropSecond)
}

// The newest goes to the place beneath it.
fn writes<'a>(types: &Layouts<'_>, ty: TypeId, out: &mut Tasks<'a>) -> Result<(), NoMemory>
    ensures { OnOk result (tasks_by out.new.items ≡ tasks_by out.old.items ++ writes types.now ty) }
{
    for k in 0..types.count(ty) {
        out.push(Task::Step(Act::Write { ty, k }))?;
    }
    Ok(())
}

/// The newest goes to the place beneath it, and stays in its stead.
pub fn stored<'a>(types: &Layouts<'_>, ty: TypeId, out: &mut Tasks<'a>) -> Result<(), NoMemory>
    ensures { OnOk result (tasks_by out.new.items ≡ tasks_by out.old.items ++ writes types.now ty ++ quiet DropSecond ∷ []) }
{
    writes(types, ty, out)?;
    quiet(out, Operation::DropSecond)
}

fn scalars_calculated<'a>(
    mark: Mark,
    op: BinOp,
    operands: WideType,
    out: &mut Tasks<'a>,
) -> Result<(), NoMemory>
    ensures { OnOk result (tasks_by out.new.items ≡ tasks_by out.old.items ++ each_from (λ k. marked mark (Component op operands k)) 0 operands.count) }
{
    for k in 0..operands.ty().count as usize {
        out.push(mark.task(Act::Component { op, operands, k }))?;
    }
    Ok(())
}

// An operator on the two newest, which have components of this type.
fn calculates<'a>(
    alloc: Global,
    types: &Layouts<'_>,
    mark: Mark,
    op: BinOp,
    operands: WideType,
    out: &mut Tasks<'a>,
) -> Result<(), NoMemory>
    ensures { OnOk result (tasks_by out.new.items ≡ tasks_by out.old.items ++ calculates types.now (marked mark) op operands) }
{
    quiet(out, Operation::Push(Entry::void(alloc)))?;
    scalars_calculated(mark, op, operands, out)?;
    quiet(out, Operation::DropSecond)?;
    quiet(out, Operation::DropSecond)
}

// ---- assignments to what is no pointer

// The old value, where it stays.
fn kept<'a>(keeps: bool, out: &mut Tasks<'a>) -> Result<(), NoMemory>
    ensures { OnOk result (tasks_by out.new.items ≡ tasks_by out.old.items ++ (if keeps then quiet Keep ∷ [] else [])) }
{
    if keeps {
        quiet(out, Operation::Keep)
    } else {
        Ok(())
    }
}

/// The first part of `left op= right`, with the place on top: it is read.
pub fn old_value<'a>(
    alloc: Global,
    types: &Layouts<'_>,
    ty: TypeId,
    inner: WideShape,
    keeps: bool,
    out: &mut Tasks<'a>,
) -> Result<(), NoMemory>
    ensures { OnOk result (tasks_by out.new.items ≡ tasks_by out.old.items ++ reads types.now Quiet ty ++ ((if keeps then quiet Keep ∷ [] else []) ++ quiet (Convert (shape_of types.now ty) inner) ∷ [])) }
{
    reads(alloc, types, Mark::Quiet, ty, out)?;
    kept(keeps, out)?;
    quiet(
        out,
        Operation::Convert {
            from: types.shape(ty),
            to: inner,
        },
    )
}

// The last part: what the operator makes is written. Each scalar takes one step for all of this.
fn new_value<'a>(
    alloc: Global,
    types: &Layouts<'_>,
    op: BinOp,
    ty: TypeId,
    inner: WideShape,
    out: &mut Tasks<'a>,
) -> Result<(), NoMemory>
    ensures { OnOk result (tasks_by out.new.items ≡ tasks_by out.old.items ++ calculates types.now Quiet op (gentype_in inner) ++ quiet (Convert inner (shape_of types.now ty)) ∷ writes types.now ty) }
{
    calculates(alloc, types, Mark::Quiet, op, inner.gentype(), out)?;
    quiet(
        out,
        Operation::Convert {
            from: inner,
            to: types.shape(ty),
        },
    )?;
    writes(types, ty, out)
}

/// The end of `left op= right`: the new value stays in the place's stead.
pub fn updated<'a>(
    alloc: Global,
    types: &Layouts<'_>,
    op: BinOp,
    ty: TypeId,
    inner: WideShape,
    out: &mut Tasks<'a>,
) -> Result<(), NoMemory>
    ensures { OnOk result (tasks_by out.new.items ≡ tasks_by out.old.items ++ updated_end types.now op ty inner) }
{
    new_value(alloc, types, op, ty, inner, out)?;
    quiet(out, Operation::DropSecond)
}

fn one_in_each(alloc: Global, count: u8) -> Result<List<Scalar>, NoMemory>
    ensures { IfOk result (λ v. v ≡ replicate count (Pattern 1)) }
{
    let mut v = Vec::new(alloc);
    for _component in 0..count {
        v.push(Scalar::Pattern(1))?;
    }
    Ok(List::from_vec(v))
}

// 1, or a vector of it.
fn ones<'a>(alloc: Global, shape: WideShape, out: &mut Tasks<'a>) -> Result<(), NoMemory>
    ensures { OnOk result (tasks_by out.new.items ≡ tasks_by out.old.items ++ ones shape) }
{
    let v = one_in_each(alloc, shape.count())?;
    quiet(out, Operation::Push(Entry::Value(v)))
}

// `++` and `--` add and subtract 1; of the postfix forms the old value stays (C99, 6.5.2.4 and 6.5.3.1).
fn number_changed<'a>(
    alloc: Global,
    types: &Layouts<'_>,
    op: BinOp,
    a: &Expr,
    keeps: bool,
    out: &mut Tasks<'a>,
) -> Result<(), NoMemory>
    ensures { OnOk result (tasks_by out.new.items ≡ tasks_by out.old.items ++ changes types.now op (operand_of types.now (expr_by a.now)).ty (promoted_in (shape_at types.now (operand_of types.now (expr_by a.now)))) (if keeps then quiet Keep ∷ [] else []) (ones (promoted_in (shape_at types.now (operand_of types.now (expr_by a.now)))))) }
{
    let inner = types.shape(a.ty).promoted();
    old_value(alloc, types, a.ty, inner, keeps, out)?;
    ones(alloc, inner, out)?;
    new_value(alloc, types, op, a.ty, inner, out)
}

/// Of a number, with its place on top.
pub fn number_prefix<'a>(
    alloc: Global,
    types: &Layouts<'_>,
    op: BinOp,
    a: &Expr,
    out: &mut Tasks<'a>,
) -> Result<(), NoMemory>
    ensures { OnOk result (tasks_by out.new.items ≡ tasks_by out.old.items ++ prefix_end types.now op (operand_of types.now (expr_by a.now))) }
{
    number_changed(alloc, types, op, a, false, out)?;
    quiet(out, Operation::DropSecond)
}

/// Of a number, with its place on top.
pub fn number_postfix<'a>(
    alloc: Global,
    types: &Layouts<'_>,
    op: BinOp,
    a: &Expr,
    out: &mut Tasks<'a>,
) -> Result<(), NoMemory>
    ensures { OnOk result (tasks_by out.new.items ≡ tasks_by out.old.items ++ postfix_end types.now op (operand_of types.now (expr_by a.now))) }
{
    number_changed(alloc, types, op, a, true, out)?;
    quiet(out, Operation::Drop)?;
    quiet(out, Operation::Drop)
}

// ---- pointers, which stand in variables alone

// What is done to a pointer variable, which a node names.
fn recall<'a>(node: &Node) -> Act<'a>
    ensures { act_by result ≡ of_variable Recall node.now }
{
    match node {
        Node::Param(k) => Act::Recall {
            is_param: true,
            k: *k,
        },
        Node::Var(k) => Act::Recall {
            is_param: false,
            k: *k,
        },
        _ => Act::Pass,
    }
}

fn point<'a>(node: &Node) -> Act<'a>
    ensures { act_by result ≡ of_variable Point node.now }
{
    match node {
        Node::Param(k) => Act::Point {
            is_param: true,
            k: *k,
        },
        Node::Var(k) => Act::Point {
            is_param: false,
            k: *k,
        },
        _ => Act::Pass,
    }
}

/// A pointer's value is that of its variable.
pub fn pointer_loaded<'a>(node: &Node, out: &mut Tasks<'a>) -> Result<(), NoMemory>
    ensures { OnOk result (tasks_by out.new.items ≡ tasks_by out.old.items ++ Step (of_variable Recall node.now) ∷ []) }
{
    out.push(Task::Step(recall(node)))?;
    Ok(())
}

/// The newest becomes a variable's pointer.
pub fn pointed<'a>(p: &Expr, out: &mut Tasks<'a>) -> Result<(), NoMemory>
    ensures { OnOk result (tasks_by out.new.items ≡ tasks_by out.old.items ++ Step (of_variable Point (out-Expr p.now).node) ∷ []) }
{
    out.push(Task::Step(point(&p.node)))?;
    Ok(())
}

/// A pointer variable, before an operand is added to it.
pub fn recalled<'a>(p: &Expr, out: &mut Tasks<'a>) -> Result<(), NoMemory>
    ensures { OnOk result (tasks_by out.new.items ≡ tasks_by out.old.items ++ recalled (out-Expr p.now).node) }
{
    pass(out)?;
    out.push(Task::Quiet(recall(&p.node)))?;
    Ok(())
}

// The bytes of what a pointer points to.
fn pointee_size(types: &Layouts<'_>, shape: Shape) -> u32
    ensures { result ≡ pointee_size types.now shape }
{
    match shape {
        Shape::Pointer { to, .. } => types.size(to),
        _ => 0,
    }
}

fn offset(types: &Layouts<'_>, op: BinOp, p: &Expr, index: WideShape) -> Operation
    ensures { result ≡ offset types.now op (operand_of types.now (expr_by p.now)) index }
{
    Operation::Offset {
        op,
        index,
        size: pointee_size(types, types.shape(p.ty).shape()),
    }
}

/// A pointer variable and a number become that many elements further.
pub fn moved<'a>(
    types: &Layouts<'_>,
    op: BinOp,
    p: &Expr,
    n: &Expr,
    out: &mut Tasks<'a>,
) -> Result<(), NoMemory>
    ensures { OnOk result (tasks_by out.new.items ≡ tasks_by out.old.items ++ moved_end types.now op (operand_of types.now (expr_by p.now)) (operand_of types.now (expr_by n.now))) }
{
    quiet(out, offset(types, op, p, types.shape(n.ty)))?;
    pointed(p, out)
}

fn one_further<'a>(
    alloc: Global,
    types: &Layouts<'_>,
    op: BinOp,
    p: &Expr,
    out: &mut Tasks<'a>,
) -> Result<(), NoMemory>
    ensures { OnOk result (tasks_by out.new.items ≡ tasks_by out.old.items ++ one_further types.now op (operand_of types.now (expr_by p.now))) }
{
    out.push(Task::Quiet(recall(&p.node)))?;
    quiet(out, Operation::Push(Entry::number(alloc, 1)?))?;
    quiet(out, offset(types, op, p, WideShape::int()))?;
    out.push(Task::Step(point(&p.node)))?;
    Ok(())
}

/// Of a pointer.
pub fn pointer_prefix<'a>(
    alloc: Global,
    types: &Layouts<'_>,
    op: BinOp,
    a: &Expr,
    out: &mut Tasks<'a>,
) -> Result<(), NoMemory>
    ensures { OnOk result (tasks_by out.new.items ≡ tasks_by out.old.items ++ Step Pass ∷ one_further types.now op (operand_of types.now (expr_by a.now))) }
{
    pass(out)?;
    one_further(alloc, types, op, a, out)
}

/// Of a pointer.
pub fn pointer_postfix<'a>(
    alloc: Global,
    types: &Layouts<'_>,
    op: BinOp,
    a: &Expr,
    out: &mut Tasks<'a>,
) -> Result<(), NoMemory>
    ensures { OnOk result (tasks_by out.new.items ≡ tasks_by out.old.items ++ recalled (out-Expr a.now).node ++ one_further types.now op (operand_of types.now (expr_by a.now)) ++ quiet Drop ∷ []) }
{
    recalled(a, out)?;
    one_further(alloc, types, op, a, out)?;
    quiet(out, Operation::Drop)
}

// ---- values

/// A literal.
pub fn number<'a>(alloc: Global, n: u64, out: &mut Tasks<'a>) -> Result<(), NoMemory>
    ensures { OnOk result (tasks_by out.new.items ≡ tasks_by out.old.items ++ step (Push (Value (Pattern n ∷ []))) ∷ []) }
{
    step(out, Operation::Push(Entry::number(alloc, n)?))
}

/// A value becomes one of another type.
pub fn converted<'a>(
    types: &Layouts<'_>,
    a: &Expr,
    ty: TypeId,
    out: &mut Tasks<'a>,
) -> Result<(), NoMemory>
    ensures { OnOk result (tasks_by out.new.items ≡ tasks_by out.old.items ++ making (count_at types.now ty) (Convert (shape_at types.now (operand_of types.now (expr_by a.now))) (shape_of types.now ty))) }
{
    let op = Operation::Convert {
        from: types.shape(a.ty),
        to: types.shape(ty),
    };
    making(out, types.count(ty), op)
}

/// What stands at a pointer that is no place.
pub fn dereferenced<'a>(
    types: &Layouts<'_>,
    ty: TypeId,
    out: &mut Tasks<'a>,
) -> Result<(), NoMemory>
    ensures { OnOk result (tasks_by out.new.items ≡ tasks_by out.old.items ++ making (count_at types.now ty) (Slice 0 (count_at types.now ty))) }
{
    let count = types.count(ty);
    making(out, count, Operation::Slice { from: 0, count })
}

/// `+`, `-`, `~` and `!`.
pub fn operated<'a>(
    types: &Layouts<'_>,
    op: UnOp,
    a: &Expr,
    ty: TypeId,
    out: &mut Tasks<'a>,
) -> Result<(), NoMemory>
    ensures { OnOk result (tasks_by out.new.items ≡ tasks_by out.old.items ++ making (count_at types.now ty) (Unary op (gentype_at types.now (operand_of types.now (expr_by a.now)).ty))) }
{
    let operand = types.gentype(a.ty);
    making(out, types.count(ty), Operation::Unary { op, operand })
}

fn pointers_compared<'a>(
    types: &Layouts<'_>,
    op: BinOp,
    a: &Expr,
    out: &mut Tasks<'a>,
) -> Result<(), NoMemory>
    ensures { OnOk result (tasks_by out.new.items ≡ tasks_by out.old.items ++ step (Compare op (pointee_size types.now (shape_at types.now (operand_of types.now (expr_by a.now))))) ∷ []) }
{
    let size = pointee_size(types, types.shape(a.ty).shape());
    step(out, Operation::Compare { op, size })
}

fn number_and_pointer<'a>(
    types: &Layouts<'_>,
    op: BinOp,
    a: &Expr,
    p: &Expr,
    out: &mut Tasks<'a>,
) -> Result<(), NoMemory>
    ensures { OnOk result (tasks_by out.new.items ≡ tasks_by out.old.items ++ quiet Swap ∷ step (offset types.now op (operand_of types.now (expr_by p.now)) (shape_at types.now (operand_of types.now (expr_by a.now)))) ∷ []) }
{
    quiet(out, Operation::Swap)?;
    step(out, offset(types, op, p, types.shape(a.ty)))
}

/// An operator on two values.
pub fn calculated<'a>(
    alloc: Global,
    types: &Layouts<'_>,
    op: BinOp,
    a: &Expr,
    b: &Expr,
    out: &mut Tasks<'a>,
) -> Result<(), NoMemory>
    ensures { OnOk result (tasks_by out.new.items ≡ tasks_by out.old.items ++ calculated types.now op (operand_of types.now (expr_by a.now)) (operand_of types.now (expr_by b.now))) }
{
    if points(types, a) {
        if points(types, b) {
            pointers_compared(types, op, a, out)
        } else {
            step(out, offset(types, op, a, types.shape(b.ty)))
        }
    } else if points(types, b) {
        number_and_pointer(types, op, a, b, out)
    } else {
        calculates(alloc, types, Mark::Step, op, types.gentype(a.ty), out)
    }
}

/// `&&` and `||`.
pub fn unless<'a>(decided: bool, other: &'a Expr, out: &mut Tasks<'a>) -> Result<(), NoMemory>
    ensures { OnOk result (tasks_by out.new.items ≡ tasks_by out.old.items ++ Quiet (Unless decided (expr_by other.now)) ∷ Step Pass ∷ []) }
{
    out.push(Task::Quiet(Act::Unless { decided, other }))?;
    out.push(Task::Step(Act::Pass))?;
    Ok(())
}

/// `?:`.
pub fn chosen<'a>(
    types: &Layouts<'_>,
    on_true: &'a Expr,
    on_false: &'a Expr,
    ty: TypeId,
    out: &mut Tasks<'a>,
) -> Result<(), NoMemory>
    ensures { OnOk result (tasks_by out.new.items ≡ tasks_by out.old.items ++ Quiet (Choose (expr_by on_true.now) (expr_by on_false.now)) ∷ copied types.now ty) }
{
    out.push(Task::Quiet(Act::Choose { on_true, on_false }))?;
    copied(types, ty, out)
}

// How many scalars members have.
#[tactic(auto, using(crate::proofs::OneByOne::members_counted))]
fn scalars_of(types: &Layouts<'_>, members: &[Member]) -> Result<usize, NoMemory>
    ensures { IfOk result (λ n. n ≡ total types.now (member_types members.now)) }
{
    let mut sum = 0usize;
    for member in members {
        match sum.checked_add(types.count(member.ty)) {
            Some(next) => sum = next,
            None => return Err(NoMemory),
        }
    }
    Ok(sum)
}

// How many scalars lie before a member.
#[tactic(auto, using(crate::proofs::OneByOne::members_before))]
fn scalars_before(types: &Layouts<'_>, ty: TypeId, k: u32) -> Result<usize, NoMemory>
    ensures { IfOk result (λ n. n ≡ total types.now (take k (member_types (members_of types.now ty)))) }
{
    let members = types.members(ty);
    let before = members.len().min(k as usize);
    scalars_of(types, &members[..before])
}

/// A member of a value that is no place.
pub fn member_value<'a>(
    types: &Layouts<'_>,
    k: u32,
    a: &Expr,
    ty: TypeId,
    out: &mut Tasks<'a>,
) -> Result<(), NoMemory>
    ensures { OnOk result (tasks_by out.new.items ≡ tasks_by out.old.items ++ making (count_at types.now ty) (Slice (total types.now (take k (member_types (members_of types.now (operand_of types.now (expr_by a.now)).ty)))) (count_at types.now ty))) }
{
    let from = scalars_before(types, a.ty, k)?;
    let count = types.count(ty);
    making(out, count, Operation::Slice { from, count })
}

fn elements_in(shape: Shape) -> u32
    ensures { result ≡ elements_in shape }
{
    match shape {
        Shape::Array { len, .. } => len,
        _ => 0,
    }
}

/// An element of an array that is no place.
pub fn element_value<'a>(
    types: &Layouts<'_>,
    a: &Expr,
    i: &Expr,
    ty: TypeId,
    out: &mut Tasks<'a>,
) -> Result<(), NoMemory>
    ensures { OnOk result (tasks_by out.new.items ≡ tasks_by out.old.items ++ element_end types.now ty (operand_of types.now (expr_by a.now)) (operand_of types.now (expr_by i.now))) }
{
    let count = types.count(ty);
    let op = Operation::Element {
        index: types.shape(i.ty),
        count,
        len: elements_in(types.shape(a.ty).shape()),
    };
    making(out, count, op)
}

/// Components of a vector that is no place.
pub fn components<'a>(alloc: Global, at: &List<u8>, out: &mut Tasks<'a>) -> Result<(), NoMemory>
    ensures { OnOk result (tasks_by out.new.items ≡ tasks_by out.old.items ++ making (length at.now) (Components at.now)) }
{
    let copy = copied_components(alloc, at)?;
    making(out, at.len(), Operation::Components(copy))
}

/// A vector literal.
pub fn vector<'a>(
    types: &Layouts<'_>,
    ty: TypeId,
    operands: &[Expr],
    out: &mut Tasks<'a>,
) -> Result<(), NoMemory>
    ensures { OnOk result (tasks_by out.new.items ≡ tasks_by out.old.items ++ making (count_at types.now ty) (Vector (length operands.now) (count_at types.now ty))) }
{
    let count = types.count(ty);
    let parts = operands.len();
    making(out, count, Operation::Vector { parts, count })
}

fn types_of(alloc: Global, operands: &[Expr]) -> Result<List<TypeId>, NoMemory>
    ensures { IfOk result (λ types. types ≡ map (λ e. (out-Expr e).ty) operands.now) }
{
    let mut types = Vec::new(alloc);
    for operand in operands {
        types.push(operand.ty)?;
    }
    Ok(List::from_vec(types))
}

/// An initialiser list.
pub fn filled<'a>(
    alloc: Global,
    types: &Layouts<'_>,
    ty: TypeId,
    operands: &[Expr],
    out: &mut Tasks<'a>,
) -> Result<(), NoMemory>
    ensures { OnOk result (tasks_by out.new.items ≡ tasks_by out.old.items ++ making (count_at types.now ty) (Fill (types_of (map (λ e. operand_of types.now (expr_by e)) operands.now)) ty)) }
{
    let op = Operation::Fill {
        types: types_of(alloc, operands)?,
        ty,
    };
    making(out, types.count(ty), op)
}

// ---- calls

/// Of a function of the unit. Where it has no arguments, its node takes a step even without a result.
pub fn call<'a>(
    types: &Layouts<'_>,
    function: u32,
    number: u32,
    operands: &[Expr],
    out: &mut Tasks<'a>,
) -> Result<(), NoMemory>
    ensures { OnOk result (tasks_by out.new.items ≡ tasks_by out.old.items ++ call_end types.now function number (map (λ e. operand_of types.now (expr_by e)) operands.now)) }
{
    let scalars = total(types, operands)?;
    steps(out, scalars)?;
    out.push(Task::Step(Act::Enter {
        function,
        number,
        args: operands.len(),
        least: 1usize.saturating_sub(scalars),
    }))?;
    Ok(())
}

// A fence changes nothing. Its step passes the flags.
fn fence<'a>(alloc: Global, out: &mut Tasks<'a>) -> Result<(), NoMemory>
    ensures { OnOk result (tasks_by out.new.items ≡ tasks_by out.old.items ++ fence_end) }
{
    quiet(out, Operation::Drop)?;
    step(out, Operation::Push(Entry::void(alloc)))
}

fn work_item<'a>(
    types: &Layouts<'_>,
    function: Builtin,
    operands: &[Expr],
    out: &mut Tasks<'a>,
) -> Result<(), NoMemory>
    ensures { OnOk result (tasks_by out.new.items ≡ tasks_by out.old.items ++ work_item_end types.now function (map (λ e. operand_of types.now (expr_by e)) operands.now)) }
{
    passed(types, operands, out)?;
    out.push(Task::Step(Act::WorkItem(function)))?;
    Ok(())
}

fn barrier<'a>(number: u32, out: &mut Tasks<'a>) -> Result<(), NoMemory>
    ensures { OnOk result (tasks_by out.new.items ≡ tasks_by out.old.items ++ Step (Wait number) ∷ []) }
{
    out.push(Task::Step(Act::Wait { number }))?;
    Ok(())
}

fn atomic<'a>(
    types: &Layouts<'_>,
    op: Builtin,
    signed: bool,
    operands: &[Expr],
    out: &mut Tasks<'a>,
) -> Result<(), NoMemory>
    ensures { OnOk result (tasks_by out.new.items ≡ tasks_by out.old.items ++ atomic_end types.now op signed (map (λ e. operand_of types.now (expr_by e)) operands.now)) }
{
    passed(types, operands, out)?;
    out.push(Task::Step(Act::Atomic {
        op,
        signed,
        args: operands.len().saturating_sub(1),
    }))?;
    Ok(())
}

fn element_bytes(types: &Layouts<'_>, ty: TypeId) -> u32
    ensures { result ≡ element_bytes types.now ty }
{
    (types.gentype(ty).bits() / 8) as u32
}

// vloadN makes each scalar with its read; vstoreN passes each of its vector with its write, and gives nothing
// (OpenCL C 1.2, 6.12.7).
fn vector_load<'a>(
    alloc: Global,
    types: &Layouts<'_>,
    n: u8,
    ty: TypeId,
    operands: &[Expr],
    out: &mut Tasks<'a>,
) -> Result<(), NoMemory>
    ensures { OnOk result (tasks_by out.new.items ≡ tasks_by out.old.items ++ vector_load_end types.now n ty (map (λ e. operand_of types.now (expr_by e)) operands.now)) }
{
    passed(types, operands, out)?;
    let size = element_bytes(types, ty);
    quiet(out, Operation::Elements { n, size })?;
    loaded(alloc, types, ty, out)
}

fn vector_written<'a>(
    alloc: Global,
    types: &Layouts<'_>,
    n: u8,
    v: &Expr,
    out: &mut Tasks<'a>,
) -> Result<(), NoMemory>
    ensures { OnOk result (tasks_by out.new.items ≡ tasks_by out.old.items ++ vector_written types.now n (operand_of types.now (expr_by v.now)).ty) }
{
    let size = element_bytes(types, v.ty);
    quiet(out, Operation::Elements { n, size })?;
    quiet(out, Operation::Swap)?;
    writes(types, v.ty, out)?;
    quiet(out, Operation::Drop)?;
    quiet(out, Operation::Drop)?;
    quiet(out, Operation::Push(Entry::void(alloc)))
}

fn vector_store<'a>(
    alloc: Global,
    types: &Layouts<'_>,
    n: u8,
    operands: &[Expr],
    out: &mut Tasks<'a>,
) -> Result<(), NoMemory>
    ensures { OnOk result (tasks_by out.new.items ≡ tasks_by out.old.items ++ vector_store_end types.now n (map (λ e. operand_of types.now (expr_by e)) operands.now)) }
{
    let [v, rest @ ..] = operands else {
        return Ok(());
    };
    passed(types, rest, out)?;
    vector_written(alloc, types, n, v, out)
}

fn first_gentype(types: &Layouts<'_>, operands: &[Expr]) -> WideType
    ensures { result ≡ first_gentype types.now (types_of (map (λ e. operand_of types.now (expr_by e)) operands.now)) }
{
    match operands {
        [] => WideShape::int().gentype(),
        [first, ..] => types.gentype(first.ty),
    }
}

fn applies<'a>(
    types: &Layouts<'_>,
    function: Builtin,
    ty: TypeId,
    operands: &[Expr],
    out: &mut Tasks<'a>,
) -> Result<(), NoMemory>
    ensures { OnOk result (tasks_by out.new.items ≡ tasks_by out.old.items ++ applied_end types.now function ty (map (λ e. operand_of types.now (expr_by e)) operands.now)) }
{
    passed(types, operands, out)?;
    let op = Operation::Apply {
        function,
        args: operands.len(),
        from: first_gentype(types, operands),
        to: types.gentype(ty),
    };
    making(out, types.count(ty), op)
}

/// Of a built-in function.
pub fn built_in<'a>(
    alloc: Global,
    types: &Layouts<'_>,
    function: Builtin,
    e: &Expr,
    out: &mut Tasks<'a>,
) -> Result<(), NoMemory>
    ensures { OnOk result (tasks_by out.new.items ≡ tasks_by out.old.items ++ built_in_end types.now function (out-Expr e.now).ty (out-Expr e.now).number (map (λ e. operand_of types.now (expr_by e)) (out-Expr e.now).operands.items)) }
{
    let operands = e.operands.as_slice();
    match function {
        Builtin::GetWorkDim
        | Builtin::GetGlobalSize
        | Builtin::GetGlobalId
        | Builtin::GetLocalSize
        | Builtin::GetLocalId
        | Builtin::GetNumGroups
        | Builtin::GetGroupId
        | Builtin::GetGlobalOffset => work_item(types, function, operands, out),
        Builtin::Barrier => barrier(e.number, out),
        Builtin::MemFence | Builtin::ReadMemFence | Builtin::WriteMemFence => fence(alloc, out),
        Builtin::Vload(n) => vector_load(alloc, types, n, e.ty, operands, out),
        Builtin::Vstore(n) => vector_store(alloc, types, n, operands, out),
        Builtin::AtomicMin | Builtin::AtomicMax => {
            let signed = types.gentype(e.ty).ty().signed;
            atomic(types, function, signed, operands, out)
        }
        Builtin::AtomicAdd
        | Builtin::AtomicSub
        | Builtin::AtomicXchg
        | Builtin::AtomicAnd
        | Builtin::AtomicOr
        | Builtin::AtomicXor
        | Builtin::AtomicInc
        | Builtin::AtomicDec
        | Builtin::AtomicCmpxchg => atomic(types, function, false, operands, out),
        _ => applies(types, function, e.ty, operands, out),
    }
}
