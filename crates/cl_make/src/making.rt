//! Conversions, and the typed nodes that rules make.

ghost use Rattle.std.specs.Prelude.{◌≡◌, ◌<◌, ◌∷◌, [], true, length, slice_get, Some, IfOk};
ghost use Rattle.cl_builtins.specs.Found.{IsKnown};
ghost use Rattle.cl_builtins.specs.Kinds.{is_gentype};
ghost use Rattle.cl_make.specs.Building.{IsFitted, name_head, node_of, operand_named, operand_of, value_of};
ghost use Rattle.cl_make.specs.Answered.{AllConverted, IsConvertedOf, IsMadeOf, IsNamedOf, IsNumberOf};
ghost use Rattle.cl_make.specs.Ready.{AreReady, Grows, IsReady};
ghost use Rattle.cl_make.specs.Wanted.{AreAskable, IsAskable, IsAsked};

use crate::asking::{given, of_shape};
use crate::typed::Typed;
use cl_builtins::Gentype;
use cl_rules::{Head, Made, Operand, Want};
use cl_scope::scope::{Declared, DeclaredKind};
use cl_tree::{Facts, Shape, TExpr, TNode};
use cl_types::{TypeId, TypeTable};
use clv_num::Bits;
use clv_place::{List, NoMemory, Place};
use std::alloc::Global;

// A node with its operands. A name has none.
fn node(head: Head, args: Vec<TExpr>) -> TNode
    ensures { result ≡ node_of head args }
{
    match head {
        Head::Param(k) => TNode::Param(k),
        Head::Var(k) => TNode::Var(k),
        Head::Constant(k) => TNode::Constant(k),
        Head::Convert => TNode::Convert(args),
        Head::Unary(op) => TNode::Unary { op, args },
        Head::Binary(op) => TNode::Binary { op, args },
        Head::Assign(op) => TNode::Assign { op, args },
        Head::Cond => TNode::Cond(args),
        Head::Vector => TNode::Vector(args),
        Head::Call(function) => TNode::Call { function, args },
        Head::Builtin(builtin) => TNode::Builtin { builtin, args },
        Head::Index => TNode::Index(args),
        Head::Member(member) => TNode::Member { member, args },
        Head::Components(at) => TNode::Components { at, args },
        Head::Comma => TNode::Comma(args),
        Head::Fill => TNode::Fill(args),
    }
}

fn one(alloc: Global, only: TExpr) -> Result<Vec<TExpr>, NoMemory>
    ensures { IfOk result (λ args. args.items ≡ only ∷ []) }
{
    let mut args = Vec::new(alloc);
    args.push(only)?;
    Ok(args)
}

// A tree of this type: by one conversion exactly where its own type is another.
fn fitted(alloc: Global, ty: TypeId, tree: TExpr) -> Result<TExpr, NoMemory>
    ensures { IfOk result (IsFitted ty tree) }
{
    if tree.ty.0 == ty.0 {
        return Ok(tree);
    }
    let place = tree.place;
    let args = one(alloc, tree)?;
    Ok(TExpr {
        ty,
        place,
        node: TNode::Convert(args),
    })
}

/// An operand's tree, converted to the type that is wanted (C99, 6.3; OpenCL C 1.2, 6.2): by one node exactly where
/// its type is another.
pub fn converted(
    alloc: Global,
    want: Want,
    operand: Typed,
    types: &mut TypeTable,
) -> Result<TExpr, NoMemory>
    requires ready { IsReady types.old operand }
    requires asked { IsAskable types.old want }
    ensures converted { IfOk result (IsConvertedOf types.new want operand.tree) }
    ensures grows { Grows types.old types.new }
{
    types.is_table();
    match want {
        Want::Own => Ok(operand.tree),
        Want::Type(ty) => fitted(alloc, ty, operand.tree),
        Want::Of(s) => {
            let ty = of_shape(s, types)?;
            fitted(alloc, ty, operand.tree)
        }
    }
}

// The type that is wanted of the operand at an index.
fn want_at(wants: &List<Want>, at: usize) -> Want
    requires { at < length wants.now }
    ensures { slice_get wants.now at ≡ Some result }
{
    match wants.get(at) {
        Some(want) => *want,
        None => unreachable!(),
    }
}

// The trees of operands, each converted to the type that is wanted of it.
fn all_converted(
    alloc: Global,
    wants: &List<Want>,
    operands: Vec<Typed>,
    types: &mut TypeTable,
) -> Result<Vec<TExpr>, NoMemory>
    requires ready { AreReady types.old operands.items }
    requires asked { AreAskable types.old wants.now }
    requires each { length wants.now ≡ length operands.items }
    ensures converted { IfOk result (λ args. AllConverted types.new wants.now operands.items args.items) }
    ensures grows { Grows types.old types.new }
{
    types.is_table();
    let mut args = Vec::new(alloc);
    for operand in operands {
        let want = want_at(wants, args.len());
        args.push(converted(alloc, want, operand, types)?)?;
    }
    Ok(args)
}

// What a parent has to know of a node that was made.
fn operand_of(types: &TypeTable, ty: TypeId, made: &Made) -> Operand
    requires { IsKnown types.now ty }
    ensures { result ≡ operand_of types.now ty made.now }
{
    Operand {
        facts: Facts {
            ty,
            lies: made.lies,
            component: made.component,
        },
        shape: Shape::of(types, ty),
        readonly: made.readonly,
        complete: true,
    }
}

/// The typed node that a rule makes of typed operands at a place: each operand converted to the type that is wanted
/// of it.
pub fn made(
    alloc: Global,
    m: Made,
    place: Place,
    operands: Vec<Typed>,
    types: &mut TypeTable,
) -> Result<Typed, NoMemory>
    requires ready { AreReady types.old operands.items }
    requires asked { IsAsked types.old m (length operands.items) }
    ensures made { IfOk result (IsMadeOf types.new m place operands.items) }
    ensures grows { Grows types.old types.new }
{
    types.is_table();
    let args = all_converted(alloc, &m.wants, operands, types)?;
    let ty = given(m.gives, types)?;
    let operand = operand_of(types, ty, &m);
    Ok(Typed {
        tree: TExpr {
            ty,
            place,
            node: node(m.head, args),
        },
        operand,
    })
}

// What a parent has to know of a value.
fn value_of(types: &TypeTable, ty: TypeId) -> Operand
    requires { IsKnown types.now ty }
    ensures { result ≡ value_of types.now ty }
{
    Operand {
        facts: Facts {
            ty,
            lies: None,
            component: false,
        },
        shape: Shape::of(types, ty),
        readonly: false,
        complete: true,
    }
}

/// A number of an integer scalar type at a place, cut to the type's width (C99, 6.4.4.1).
pub fn number(t: Gentype, n: u64, place: Place, types: &mut TypeTable) -> Result<Typed, NoMemory>
    requires { is_gentype t ≡ true }
    ensures number { IfOk result (IsNumberOf types.new t n place) }
    ensures grows { Grows types.old types.new }
{
    let ty = of_shape(Shape::Integers(t), types)?;
    let operand = value_of(types, ty);
    Ok(Typed {
        tree: TExpr {
            ty,
            place,
            node: TNode::Number(Bits::new(t.bits, n)),
        },
        operand,
    })
}

/// What the name of a parameter, a variable or a constant is in a tree; a typedef's name and a tag are no value.
pub fn head_of(kind: DeclaredKind) -> Option<Head>
    ensures { result ≡ name_head kind }
{
    match kind {
        DeclaredKind::Param(k) => Some(Head::Param(k)),
        DeclaredKind::Var(k) => Some(Head::Var(k)),
        DeclaredKind::Constant(k) => Some(Head::Constant(k)),
        DeclaredKind::Typedef => None,
        DeclaredKind::Tag => None,
    }
}

// What a parent has to know of a declared name.
fn operand_named(types: &TypeTable, d: &Declared) -> Operand
    requires { IsKnown types.now d.now.ty }
    ensures { result ≡ operand_named types.now d.now }
{
    Operand {
        facts: Facts {
            ty: d.ty,
            lies: Some(d.space),
            component: false,
        },
        shape: Shape::of(types, d.ty),
        readonly: d.readonly,
        complete: d.complete,
    }
}

/// The node of a declared name at a place (C99, 6.5.1), which takes no memory.
pub fn named(alloc: Global, d: &Declared, head: Head, place: Place, types: &TypeTable) -> Typed
    requires { IsKnown types.now d.now.ty }
    ensures { IsNamedOf types.now d.now head place result }
{
    types.is_table();
    let operand = operand_named(types, d);
    Typed {
        tree: TExpr {
            ty: d.ty,
            place,
            node: node(head, Vec::new(alloc)),
        },
        operand,
    }
}
