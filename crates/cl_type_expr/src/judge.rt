//! What the rules say of a node of typed operands.

ghost use Rattle.std.specs.Prelude.{◌≡◌, ◌<◌, length, map, IfOk};
ghost use Rattle.cl_tree.specs.Shapes.{members_of};
ghost use Rattle.cl_builtins.specs.Found.{IsKnown, AreKnown};
ghost use Rattle.cl_make.specs.Ready.{operand_in, AreKnownOperands};
ghost use Rattle.cl_make.specs.Wanted.{target};
ghost use Rattle.cl_scope.specs.Scopes.{IsKnownEnv};
ghost use Rattle.cl_type_expr.specs.Judging.{odd, unary_rule, binary_rule, assign_rule, cond_rule, index_rule, member_rule, comma_rule, call, judge};

use cl_ast::expression::ExprNode;
use cl_make::{Typed, shaped};
use cl_rules::{
    Judged, Operand, Target, assignment, binary, call_of, chosen, comma, indexed, member, unary,
};
use cl_scope::Names;
use cl_types::{BinOp, ClType, Member, TypeId, TypeTable, UnOp};
use clv_place::{List, NoMemory};
use std::alloc::Global;

// What a node has to know of its operands.
pub(crate) fn operands_of(alloc: Global, typed: &[Typed]) -> Result<List<Operand>, NoMemory>
    ensures { IfOk result (λ os. os ≡ map operand_in typed.now) }
{
    let mut operands = List::new(alloc);
    for one in typed {
        operands.push(one.operand)?;
    }
    Ok(operands)
}

// Types of the table, with what they are.
fn targets(alloc: Global, params: &[TypeId], types: &TypeTable) -> Result<List<Target>, NoMemory>
    requires { AreKnown types.now params.now }
    ensures { IfOk result (λ ts. ts ≡ map (target types.now) params.now) }
{
    let mut targets = List::new(alloc);
    for param in params {
        targets.push(shaped(types, *param))?;
    }
    Ok(targets)
}

// An operator with operands that the grammar doesn't give it.
fn odd() -> Option<Judged>
    ensures { result ≡ odd }
{
    Some(Judged::Broken(308))
}

fn unary_rule(alloc: Global, op: UnOp, os: &[Operand]) -> Result<Option<Judged>, NoMemory>
    ensures { IfOk result (λ j. j ≡ unary_rule op os.now) }
{
    match os {
        [o] => unary(alloc, op, *o),
        _ => Ok(odd()),
    }
}

fn binary_rule(alloc: Global, op: BinOp, os: &[Operand]) -> Result<Option<Judged>, NoMemory>
    ensures { IfOk result (λ j. j ≡ binary_rule op os.now) }
{
    match os {
        [a, b] => Ok(Some(binary(alloc, op, *a, *b)?)),
        _ => Ok(odd()),
    }
}

fn assign_rule(alloc: Global, op: Option<BinOp>, os: &[Operand]) -> Result<Option<Judged>, NoMemory>
    ensures { IfOk result (λ j. j ≡ assign_rule op os.now) }
{
    match os {
        [place, value] => Ok(Some(assignment(alloc, op, *place, *value)?)),
        _ => Ok(odd()),
    }
}

fn cond_rule(alloc: Global, os: &[Operand]) -> Result<Option<Judged>, NoMemory>
    ensures { IfOk result (λ j. j ≡ cond_rule os.now) }
{
    match os {
        [test, a, b] => Ok(Some(chosen(alloc, *test, *a, *b)?)),
        _ => Ok(odd()),
    }
}

fn index_rule(alloc: Global, os: &[Operand]) -> Result<Option<Judged>, NoMemory>
    ensures { IfOk result (λ j. j ≡ index_rule os.now) }
{
    match os {
        [whole, index] => indexed(alloc, *whole, *index),
        _ => Ok(odd()),
    }
}

// The members of a struct, and none of another type.
pub(crate) fn members(types: &TypeTable, t: TypeId) -> &[Member]
    requires { IsKnown types.now t }
    ensures { result.now ≡ members_of types.now t }
{
    match types.get(t) {
        ClType::Struct { members, .. } => members.as_slice(),
        _ => &[],
    }
}

fn member_rule(
    alloc: Global,
    left: bool,
    name: &[u8],
    arrow: bool,
    os: &[Operand],
    types: &TypeTable,
) -> Result<Option<Judged>, NoMemory>
    requires { AreKnownOperands types.now os.now }
    ensures { IfOk result (λ j. j ≡ member_rule types.now left name.now arrow os.now) }
{
    match os {
        [o] => {
            if arrow {
                return Ok(None);
            }
            let judged = member(alloc, left, members(types, o.facts.ty), name, *o)?;
            Ok(Some(judged))
        }
        _ => Ok(odd()),
    }
}

fn comma_rule(alloc: Global, os: &[Operand]) -> Result<Option<Judged>, NoMemory>
    ensures { IfOk result (λ j. j ≡ comma_rule os.now) }
{
    match os {
        [] => Ok(odd()),
        _ => comma(alloc, os),
    }
}

fn call(
    alloc: Global,
    name: &[u8],
    os: &[Operand],
    names: &Names,
    types: &TypeTable,
) -> Result<Option<Judged>, NoMemory>
    requires { IsKnownEnv types.now names.now }
    ensures { IfOk result (λ j. j ≡ call types.now names.now name.now os.now) }
{
    if names.find(name).is_some() {
        return Ok(Some(Judged::Broken(314)));
    }
    match names.find_function(name) {
        Some(function) => {
            let targets = targets(alloc, function.params.as_slice(), types)?;
            let judged = call_of(alloc, os, targets.as_slice(), function)?;
            Ok(Some(judged))
        }
        None => Ok(None),
    }
}

/// What the rule of a node says of typed operands: none where the node has a rule of its own.
pub(crate) fn judge(
    alloc: Global,
    node: &ExprNode,
    left: bool,
    os: &[Operand],
    names: &Names,
    types: &TypeTable,
) -> Result<Option<Judged>, NoMemory>
    requires known { IsKnownEnv types.now names.now }
    requires operands { AreKnownOperands types.now os.now }
    ensures { IfOk result (λ j. j ≡ judge types.now names.now left node.now os.now) }
{
    match node {
        ExprNode::Unary(op) => unary_rule(alloc, *op, os),
        ExprNode::Binary(op) => binary_rule(alloc, *op, os),
        ExprNode::Assign(op) => assign_rule(alloc, *op, os),
        ExprNode::Cond => cond_rule(alloc, os),
        ExprNode::Index => index_rule(alloc, os),
        ExprNode::Member { name, arrow } => {
            member_rule(alloc, left, name.as_slice(), *arrow, os, types)
        }
        ExprNode::Comma => comma_rule(alloc, os),
        ExprNode::Call(name) => call(alloc, name.as_slice(), os, names, types),
        _ => Ok(None),
    }
}
