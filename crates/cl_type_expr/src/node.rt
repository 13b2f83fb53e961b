//! Nodes whose operands come first.

ghost use Rattle.std.specs.Prelude.{◌≡◌, length, map, None, IfOk, IfErr};
ghost use Rattle.clv_place.specs.declared.stop.Stop.TheVariants.{Out};
ghost use Rattle.cl_ast.specs.declared.expression.Base.TheViews.{out-Expr};
ghost use Rattle.cl_make.specs.Ready.{Grows, AreReady, operand_in};
ghost use Rattle.cl_scope.specs.Scopes.{IsKnownEnv};
ghost use Rattle.cl_type_expr.specs.Judging.{judge};
ghost use Rattle.cl_type_expr.specs.Offences.{at, HoldsNoType};
ghost use Rattle.cl_type_expr.specs.Typing.{NodeIs, NodeStops, JudgedAsks, JudgedIs, JudgedStops};

use crate::built_in::built_in;
use crate::judge::{judge, operands_of};
use crate::special::{arrow, component_at, literal, name, size_of_value};
use cl_ast::expression::{Expr, ExprNode};
use cl_make::{Typed, made};
use cl_rules::Judged;
use cl_scope::Names;
use cl_types::TypeTable;
use clv_place::{Offence, Place, Stop};
use std::alloc::Global;

// An offence at a place.
pub(crate) fn out(code: u16, place: Place) -> Stop
    ensures { result ≡ Out (at code place) }
{
    Stop::Out(Offence { code, place })
}

// What a rule says at a place of typed operands.
pub(crate) fn judged(
    alloc: Global,
    judged: Judged,
    place: Place,
    operands: Vec<Typed>,
    types: &mut TypeTable,
) -> Result<Typed, Stop>
    requires ready { AreReady types.old operands.items }
    requires asked { JudgedAsks types.old (length operands.items) judged }
    ensures ok { IfOk result (JudgedIs types.new judged place operands.items) }
    ensures out { IfErr result (JudgedStops judged place) }
    ensures grows { Grows types.old types.new }
{
    types.is_table();
    match judged {
        Judged::Broken(code) => Err(out(code, place)),
        Judged::Makes(rule) => Ok(made(alloc, rule, place, operands, types)?),
    }
}

// A node of typed operands.
pub(crate) fn node(
    alloc: Global,
    e: &Expr,
    left: bool,
    operands: Vec<Typed>,
    names: &Names,
    types: &mut TypeTable,
) -> Result<Typed, Stop>
    requires known { IsKnownEnv types.old names.now }
    requires ready { AreReady types.old operands.items }
    requires plain { HoldsNoType (out-Expr e.now).node }
    ensures ok { IfOk result (NodeIs types.new names.now left e.now operands.items) }
    ensures out { IfErr result (NodeStops types.new names.now left e.now operands.items) }
    ensures grows { Grows types.old types.new }
{
    types.is_table();
    let os = operands_of(alloc, &operands)?;
    match judge(alloc, &e.node, left, os.as_slice(), names, types)? {
        Some(rule) => judged(alloc, rule, e.place, operands, types),
        None => special(alloc, e, left, operands, names, types),
    }
}

// A node that has a rule of its own.
fn special(
    alloc: Global,
    e: &Expr,
    left: bool,
    operands: Vec<Typed>,
    names: &Names,
    types: &mut TypeTable,
) -> Result<Typed, Stop>
    requires known { IsKnownEnv types.old names.now }
    requires ready { AreReady types.old operands.items }
    requires plain { HoldsNoType (out-Expr e.now).node }
    requires apart { judge types.old names.now left (out-Expr e.now).node (map operand_in operands.items) ≡ None }
    ensures ok { IfOk result (NodeIs types.new names.now left e.now operands.items) }
    ensures out { IfErr result (NodeStops types.new names.now left e.now operands.items) }
    ensures grows { Grows types.old types.new }
{
    types.is_table();
    match &e.node {
        ExprNode::Name(text) => name(alloc, e, left, text.as_slice(), operands, names, types),
        ExprNode::Number { value, ty } => literal(e, left, *value, *ty, operands, names, types),
        ExprNode::Unary(_) => size_of_value(e, left, operands, names, types),
        ExprNode::Member { name, .. } => {
            arrow(alloc, e, left, name.as_slice(), operands, names, types)
        }
        ExprNode::Index => component_at(alloc, e, left, operands, names, types),
        ExprNode::Call(name) => built_in(alloc, e, left, name.as_slice(), operands, names, types),
        ExprNode::Binary(_) => unreachable!(),
        ExprNode::Assign(_) => unreachable!(),
        ExprNode::Cond => unreachable!(),
        ExprNode::Comma => unreachable!(),
        ExprNode::Cast(_) => unreachable!(),
        ExprNode::Vector(_) => unreachable!(),
        ExprNode::SizeofType(_) => unreachable!(),
    }
}
