//! Typed expressions as constant expressions.

ghost use Rattle.std.specs.Prelude.{◌≡◌, ◌∷◌, [], map, IfOk};
ghost use Rattle.cl_tree.specs.declared.constant.Constancy.TheVariants.{Is};
ghost use Rattle.cl_tree.specs.Constants.{known_of, constancy_of, operands};

use crate::conversion::shape;
use crate::operand::{and_next, calculated, chosen, converted, literal, negated, no_operands};
use cl_tree::{Constancy, Operands, TExpr, TNode};
use cl_types::TypeTable;
use clv_num::Bits;
use clv_place::{List, NoMemory};
use std::alloc::Global;

// What a number comes to.
fn number(alloc: Global, bits: &Bits) -> Result<Constancy, NoMemory>
    ensures { IfOk result (λ c. c ≡ Is (bits.now.value ∷ [])) }
{
    let mut ns = List::new(alloc);
    ns.push(bits.value)?;
    Ok(Constancy::Is(ns))
}

/// What an expression comes to as a constant one: whether it is one, where it divides by zero or out of range, or
/// the patterns of its components (C99, 6.6). An operand counts even where it isn't evaluated. It takes time in
/// proportion to the nodes, and memory is its one refusal.
#[cycle(constancy)]
pub fn constancy(alloc: Global, types: &TypeTable, e: &TExpr) -> Result<Constancy, NoMemory>
    ensures { IfOk result (λ c. c ≡ constancy_of types.now e.now) }
{
    match &e.node {
        TNode::Number(bits) => number(alloc, bits),
        TNode::Convert(args) => {
            converted(
                alloc,
                types,
                shape(types, e.ty),
                operands(alloc, types, args)?,
            )
        }
        TNode::Unary { op, args } => negated(alloc, types, *op, operands(alloc, types, args)?),
        TNode::Binary { op, args } => {
            calculated(alloc, types, *op, e.place, operands(alloc, types, args)?)
        }
        TNode::Cond(args) => chosen(alloc, operands(alloc, types, args)?),
        TNode::Vector(args) => literal(alloc, shape(types, e.ty), operands(alloc, types, args)?),
        _ => Ok(Constancy::Varies),
    }
}

// What operands come to.
#[cycle(constancy)]
#[tactic(auto, using(crate::proofs::Nodes::operands_so_far))]
fn operands(alloc: Global, types: &TypeTable, args: &[TExpr]) -> Result<Operands, NoMemory>
    ensures { IfOk result (λ o. o ≡ operands types.now (map known_of args.now)) }
{
    let mut operands = no_operands(alloc);
    for arg in args {
        operands = and_next(operands, arg.ty, constancy(alloc, types, arg)?)?;
    }
    Ok(operands)
}
