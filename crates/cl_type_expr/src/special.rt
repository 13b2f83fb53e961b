//! Nodes with rules of their own: names, numbers, sizes of values, members behind `->`, and components by number.

ghost use Rattle.std.specs.Prelude.{◌≡◌, ◌∷◌, [], true, length, take, IfOk, IfErr, map};
ghost use Rattle.cl_ast.specs.declared.expression.Base.TheViews.{out-Expr};
ghost use Rattle.cl_ast.specs.declared.expression.ExprNode.TheVariants as node;
ghost use Rattle.cl_types.specs.declared.operator.UnOp.TheVariants as un;
ghost use Rattle.cl_builtins.specs.Kinds.{element_of};
ghost use Rattle.cl_tree.specs.Constants.{constancy_of, divides, number_of};
ghost use Rattle.cl_rules.specs.declared.rule.Head.TheVariants as head;
ghost use Rattle.cl_rules.specs.Operands.{component, integers};
ghost use Rattle.cl_make.specs.Building.{number_type};
ghost use Rattle.cl_make.specs.Ready.{Grows, IsReady, AreReady, operand_in};
ghost use Rattle.cl_scope.specs.Scopes.{IsKnownEnv};
ghost use Rattle.cl_type_expr.specs.Expressions.{component_in};
ghost use Rattle.cl_type_expr.specs.Judging.{IsVectorIndexed};
ghost use Rattle.cl_type_expr.specs.Typing.{NodeIs, NodeStops, MemberIs, MemberStops};

use crate::judge::members;
use crate::node::{judged, out};
use cl_ast::expression::Expr;
use cl_builtins::Gentype;
use cl_constants::{constancy, divides, number_in};
use cl_make::{Typed, head_of, made, named, number};
use cl_rules::{
    Head, Judged, Made, Operand, Want, component, dereferenced, member, no_size, type_of,
};
use cl_scope::Names;
use cl_tree::Shape;
use cl_types::TypeTable;
use clv_place::{List, NoMemory, Place, Stop};
use std::alloc::Global;

// A name: 301 where it is no value's.
pub(crate) fn name(
    alloc: Global,
    e: &Expr,
    left: bool,
    text: &[u8],
    operands: Vec<Typed>,
    names: &Names,
    types: &TypeTable,
) -> Result<Typed, Stop>
    requires known { IsKnownEnv types.now names.now }
    requires is { (out-Expr e.now).node ≡ node.Name text.now }
    ensures ok { IfOk result (NodeIs types.now names.now left e.now operands.items) }
    ensures out { IfErr result (NodeStops types.now names.now left e.now operands.items) }
{
    let Some(declared) = names.find(text) else {
        return Err(out(301, e.place));
    };
    let Some(head) = head_of(declared.kind) else {
        return Err(out(301, e.place));
    };
    Ok(named(alloc, declared, head, e.place, types))
}

// int, uint, long or ulong, by its number in the syntax tree.
fn number_type(ty: u8) -> Gentype
    ensures { result ≡ number_type ty }
{
    if ty == 0 {
        Gentype::int()
    } else if ty == 1 {
        Gentype::uint()
    } else {
        Gentype {
            bits: 64,
            signed: ty == 2,
            count: 1,
        }
    }
}

// A number or a character.
pub(crate) fn literal(
    e: &Expr,
    left: bool,
    value: u64,
    ty: u8,
    operands: Vec<Typed>,
    names: &Names,
    types: &mut TypeTable,
) -> Result<Typed, Stop>
    requires is { (out-Expr e.now).node ≡ node.Number value ty }
    ensures ok { IfOk result (NodeIs types.new names.now left e.now operands.items) }
    ensures out { IfErr result (NodeStops types.new names.now left e.now operands.items) }
    ensures grows { Grows types.old types.new }
{
    Ok(number(number_type(ty), value, e.place, types)?)
}

// `sizeof` of an expression: 303 of void, and of an array without its length.
pub(crate) fn size_of_value(
    e: &Expr,
    left: bool,
    operands: Vec<Typed>,
    names: &Names,
    types: &mut TypeTable,
) -> Result<Typed, Stop>
    requires ready { AreReady types.old operands.items }
    requires is { (out-Expr e.now).node ≡ node.Unary un.Sizeof }
    requires one { length operands.items ≡ 1 }
    ensures ok { IfOk result (NodeIs types.new names.now left e.now operands.items) }
    ensures out { IfErr result (NodeStops types.new names.now left e.now operands.items) }
    ensures grows { Grows types.old types.new }
{
    types.is_table();
    let operand = operands[0].operand;
    if no_size(operand) {
        return Err(out(303, e.place));
    }
    let size = types.size(operand.facts.ty);
    Ok(number(Gentype::uint(), u64::from(size), e.place, types)?)
}

// `p->m` is `(*p).m`: 313, 306, 307.
pub(crate) fn arrow(
    alloc: Global,
    e: &Expr,
    left: bool,
    name: &[u8],
    operands: Vec<Typed>,
    names: &Names,
    types: &mut TypeTable,
) -> Result<Typed, Stop>
    requires ready { AreReady types.old operands.items }
    requires is { (out-Expr e.now).node ≡ node.Member name.now true }
    requires one { length operands.items ≡ 1 }
    ensures ok { IfOk result (NodeIs types.new names.now left e.now operands.items) }
    ensures out { IfErr result (NodeStops types.new names.now left e.now operands.items) }
    ensures grows { Grows types.old types.new }
{
    types.is_table();
    let operand = operands[0].operand;
    match dereferenced(alloc, operand, operand.shape)? {
        Judged::Broken(code) => Err(out(code, e.place)),
        Judged::Makes(rule) => {
            let whole = made(alloc, rule, e.place, operands, types)?;
            member_of(alloc, e.place, left, name, whole, types)
        }
    }
}

fn one(alloc: Global, only: Typed) -> Result<Vec<Typed>, NoMemory>
    ensures { IfOk result (λ all. all.items ≡ only ∷ []) }
{
    let mut all = Vec::new(alloc);
    all.push(only)?;
    Ok(all)
}

// A member of a typed operand.
fn member_of(
    alloc: Global,
    place: Place,
    left: bool,
    name: &[u8],
    whole: Typed,
    types: &mut TypeTable,
) -> Result<Typed, Stop>
    requires ready { IsReady types.old whole }
    ensures ok { IfOk result (MemberIs types.new place left name.now whole) }
    ensures out { IfErr result (MemberStops types.new place left name.now whole) }
    ensures grows { Grows types.old types.new }
{
    types.is_table();
    let operand = whole.operand;
    let rule = member(alloc, left, members(types, operand.facts.ty), name, operand)?;
    let operands = one(alloc, whole)?;
    judged(alloc, rule, place, operands, types)
}

// The component of a vector by a number: 334, 307.
pub(crate) fn component_at(
    alloc: Global,
    e: &Expr,
    left: bool,
    operands: Vec<Typed>,
    names: &Names,
    types: &mut TypeTable,
) -> Result<Typed, Stop>
    requires ready { AreReady types.old operands.items }
    requires is { (out-Expr e.now).node ≡ node.Index }
    requires two { length operands.items ≡ 2 }
    requires vector { IsVectorIndexed (map operand_in operands.items) }
    ensures ok { IfOk result (NodeIs types.new names.now left e.now operands.items) }
    ensures out { IfErr result (NodeStops types.new names.now left e.now operands.items) }
    ensures grows { Grows types.old types.new }
{
    types.is_table();
    let operand = operands[0].operand;
    let (divided, at) = index_of(alloc, &operands[1], types)?;
    if let Some(place) = divided {
        return Err(out(334, place));
    }
    let t = type_of(operand.shape);
    match component_in(t.count, at) {
        Some(k) => {
            let rule = component_rule(alloc, k, t, operand)?;
            Ok(made(alloc, rule, e.place, first(operands), types)?)
        }
        None => Err(out(307, e.place)),
    }
}

// Where an index divides by zero or out of range, and its value, where it is a constant.
fn index_of(
    alloc: Global,
    index: &Typed,
    types: &TypeTable,
) -> Result<(Option<Place>, Option<u64>), NoMemory>
    requires { IsReady types.now index.now }
    ensures divides { IfOk result (λ r. r.0 ≡ divides (constancy_of types.now index.now.tree)) }
    ensures number { IfOk result (λ r. r.1 ≡ number_of types.now index.now.tree) }
{
    let value = constancy(alloc, types, &index.tree)?;
    Ok((divides(&value), number_in(index.operand.shape, &value)))
}

// The number of a component, where a vector of so many has one.
fn component_in(count: u8, number: Option<u64>) -> Option<u8>
    ensures { result ≡ component_in count number }
{
    let number = number?;
    if number < u64::from(count) {
        Some(number as u8)
    } else {
        None
    }
}

// What one component of a vector makes.
fn component_rule(alloc: Global, k: u8, t: Gentype, o: Operand) -> Result<Made, NoMemory>
    ensures { IfOk result (λ m. m ≡ component (head.Components (k ∷ [])) (integers (element_of t)) o) }
{
    let mut at = List::new(alloc);
    at.push(k)?;
    let gives = Want::Of(Shape::Integers(t.element()));
    component(alloc, Head::Components(at), gives, o)
}

// The first of two operands.
fn first(operands: Vec<Typed>) -> Vec<Typed>
    ensures { result.items ≡ take 1 operands.items }
{
    let mut operands = operands;
    operands.truncate(1);
    operands
}
