//! Calls of built-in functions.

ghost use Rattle.std.specs.Prelude.{◌≡◌, None, map, IfOk, IfErr};
ghost use Rattle.cl_builtins.specs.Found.{AreKnown};
ghost use Rattle.cl_rules.specs.declared.rule.Head.TheVariants as head;
ghost use Rattle.cl_rules.specs.declared.rule.Want.TheVariants as want;
ghost use Rattle.cl_ast.specs.declared.expression.Base.TheViews.{out-Expr};
ghost use Rattle.cl_ast.specs.declared.expression.ExprNode.TheVariants as node;
ghost use Rattle.cl_make.specs.Ready.{From, Grows, AreReady, tree_of, operand_in};
ghost use Rattle.cl_rules.specs.Operands.{value};
ghost use Rattle.cl_rules.specs.Calls.{wants_of};
ghost use Rattle.cl_scope.specs.Scopes.{IsKnownEnv};
ghost use Rattle.cl_type_expr.specs.Judging.{judge};
ghost use Rattle.cl_type_expr.specs.Expressions.{AreArguments, is_fence, is_flag, are_flags, first_divides, flag_divides, flags_fit, argument_want};
ghost use Rattle.cl_type_expr.specs.Typing.{NodeIs, NodeStops, AreReadyOperands, IsFoundAt, FoundStops};

use crate::judge::operands_of;
use crate::node::out;
use cl_ast::expression::Expr;
use cl_builtins::name::entry;
use cl_builtins::{FindStop, Found, Rule, find};
use cl_constants::{constancy, divides, number};
use cl_make::{Typed, given, made};
use cl_rules::{Head, Made, Operand, Want, seen, to_array, value, wants_of};
use cl_scope::Names;
use cl_types::{TypeId, TypeTable};
use clv_place::{List, NoMemory, Place, Stop};
use std::alloc::Global;

// Whether a call is a barrier's or a fence's.
fn is_fence(name: &[u8]) -> bool
    ensures { result ≡ is_fence name.now }
{
    match entry(name) {
        Some((_, Rule::Fence)) => true,
        _ => false,
    }
}

fn is_flag(number: Option<u64>) -> bool
    ensures { result ≡ is_flag number }
{
    match number {
        Some(n) => 0 < n && n < 4,
        None => false,
    }
}

// The first place at which a constant argument divides by zero or out of range.
fn first_divides(
    alloc: Global,
    operands: &[Typed],
    types: &TypeTable,
) -> Result<Option<Place>, NoMemory>
    ensures { IfOk result (λ p. p ≡ first_divides types.now (map tree_of operands.now)) }
{
    for operand in operands {
        let value = constancy(alloc, types, &operand.tree)?;
        if let Some(place) = divides(&value) {
            return Ok(Some(place));
        }
    }
    Ok(None)
}

// Whether each argument is the constant 1, 2 or 3.
fn are_flags(alloc: Global, operands: &[Typed], types: &TypeTable) -> Result<bool, NoMemory>
    ensures { IfOk result (λ f. f ≡ are_flags types.now (map tree_of operands.now)) }
{
    for operand in operands {
        if !is_flag(number(alloc, types, &operand.tree)?) {
            return Ok(false);
        }
    }
    Ok(true)
}

// What is wanted of an argument: an array stands for a pointer.
fn argument_want(o: Operand) -> Want
    ensures { result ≡ argument_want o }
{
    if o.shape.is_array() && seen(o).is_pointer() && !to_array(o) {
        Want::Of(seen(o))
    } else {
        Want::Type(o.facts.ty)
    }
}

// The types of arguments.
fn arguments(alloc: Global, os: &[Operand], types: &mut TypeTable) -> Result<List<TypeId>, NoMemory>
    requires { AreReadyOperands types.old os.now }
    ensures ok { IfOk result (λ ts. From types.new (λ more. AreArguments more os.now ts)) }
    ensures known { IfOk result (AreKnown types.new) }
    ensures grows { Grows types.old types.new }
{
    types.is_table();
    let mut tys = List::new(alloc);
    for o in os {
        tys.push(given(argument_want(*o), types)?)?;
    }
    Ok(tys)
}

// What a built-in function makes of its arguments.
fn rule_of(alloc: Global, found: Found) -> Result<Made, NoMemory>
    ensures { IfOk result (λ m. m ≡ value (wants_of found.params) (head.Builtin found.builtin) (want.Type found.result)) }
{
    let wants = wants_of(alloc, found.params.as_slice())?;
    Ok(value(
        wants,
        Head::Builtin(found.builtin),
        Want::Type(found.result),
    ))
}

// The place at which a constant flag of a fence divides by zero or out of range.
fn flag_divides(
    alloc: Global,
    name: &[u8],
    operands: &[Typed],
    types: &TypeTable,
) -> Result<Option<Place>, NoMemory>
    ensures { IfOk result (λ p. p ≡ flag_divides types.now name.now (map tree_of operands.now)) }
{
    if is_fence(name) {
        first_divides(alloc, operands, types)
    } else {
        Ok(None)
    }
}

// Whether the flags of a fence are what they have to be.
fn flags_fit(
    alloc: Global,
    name: &[u8],
    operands: &[Typed],
    types: &TypeTable,
) -> Result<bool, NoMemory>
    ensures { IfOk result (λ f. f ≡ flags_fit types.now name.now (map tree_of operands.now)) }
{
    if is_fence(name) {
        are_flags(alloc, operands, types)
    } else {
        Ok(true)
    }
}

// The built-in function that a call means: 301, 329.
fn found_at(
    alloc: Global,
    name: &[u8],
    place: Place,
    os: &[Operand],
    types: &mut TypeTable,
) -> Result<Found, Stop>
    requires { AreReadyOperands types.old os.now }
    ensures ok { IfOk result (IsFoundAt types.new name.now os.now) }
    ensures out { IfErr result (FoundStops types.new name.now place os.now) }
    ensures grows { Grows types.old types.new }
{
    types.is_table();
    let tys = arguments(alloc, os, types)?;
    types.is_table();
    let found = find(alloc, name, &tys, types);
    types.is_table();
    match found {
        Ok(found) => Ok(found),
        Err(FindStop::NoName) => Err(out(301, place)),
        Err(FindStop::NoForm) => Err(out(329, place)),
        Err(FindStop::NoMemory) => Err(Stop::NoMemory),
    }
}

// A call of a built-in function: 301, 329, 330, 334.
pub(crate) fn built_in(
    alloc: Global,
    e: &Expr,
    left: bool,
    name: &[u8],
    operands: Vec<Typed>,
    names: &Names,
    types: &mut TypeTable,
) -> Result<Typed, Stop>
    requires known { IsKnownEnv types.old names.now }
    requires ready { AreReady types.old operands.items }
    requires is { (out-Expr e.now).node ≡ node.Call name.now }
    requires apart { judge types.old names.now left (node.Call name.now) (map operand_in operands.items) ≡ None }
    ensures ok { IfOk result (NodeIs types.new names.now left e.now operands.items) }
    ensures out { IfErr result (NodeStops types.new names.now left e.now operands.items) }
    ensures grows { Grows types.old types.new }
{
    types.is_table();
    if let Some(place) = flag_divides(alloc, name, &operands, types)? {
        return Err(out(334, place));
    }
    let os = operands_of(alloc, &operands)?;
    let found = found_at(alloc, name, e.place, os.as_slice(), types)?;
    if !flags_fit(alloc, name, &operands, types)? {
        return Err(out(330, e.place));
    }
    let rule = rule_of(alloc, found)?;
    Ok(made(alloc, rule, e.place, operands, types)?)
}
