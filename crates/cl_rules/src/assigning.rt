//! The rules of assignments.

ghost use Rattle.std.specs.Prelude.{◌≡◌, IfOk};
ghost use Rattle.cl_rules.specs.Operators.{assigned, changing, fits, unfit, is_back, meets_back, shifts_back, adds_back, subtracts_back, calculates_back, changes, assignment};

use crate::operand::{
    integers, no_pointer, no_value, same_target, seen, to_array, two, type_at, unless, value,
};
use crate::operator::{
    amount, amount_wanted, is_fixed, is_none, is_outranked, is_unlike, meet, met, outranks,
};
use crate::rule::{Changing, Head, Judged, Meeting, Operand, Want};
use cl_tree::Shape;
use cl_types::BinOp;
use clv_place::NoMemory;
use std::alloc::Global;

fn assigned(alloc: Global, p: Operand, v: Operand) -> Result<Judged, NoMemory>
    ensures { IfOk result (λ j. j ≡ assigned p v) }
{
    let own = Want::Type(p.facts.ty);
    let made = value(two(alloc, Want::Own, own)?, Head::Assign(None), own);
    Ok(unless(
        &[
            (310, is_fixed(p)),
            (311, no_value(v, type_at(p))),
            (333, no_pointer(v, type_at(p))),
        ],
        made,
    ))
}

fn changing(alloc: Global, op: BinOp, p: Operand, c: Changing) -> Result<Judged, NoMemory>
    ensures { IfOk result (λ j. j ≡ changing op p c) }
{
    let made = value(
        two(alloc, Want::Own, c.wanted)?,
        Head::Assign(Some(op)),
        Want::Type(p.facts.ty),
    );
    Ok(unless(
        &[
            (303, c.to_arrays),
            (308, c.no_type),
            (309, c.outranked),
            (310, is_fixed(p)),
            (311, c.no_way_back),
        ],
        made,
    ))
}

fn fits(wanted: Want) -> Changing
    ensures { result ≡ fits wanted }
{
    Changing {
        no_type: false,
        to_arrays: false,
        outranked: false,
        no_way_back: false,
        wanted,
    }
}

fn unfit() -> Changing
    ensures { result ≡ unfit }
{
    Changing {
        no_type: true,
        ..fits(Want::Own)
    }
}

fn is_back(m: Meeting) -> bool
    ensures { result ≡ is_back m }
{
    match m {
        Meeting::Meet(t) => t.count != 1,
        _ => false,
    }
}

fn meets_back(p: Shape, m: Meeting) -> Changing
    ensures { result ≡ meets_back p m }
{
    Changing {
        no_type: is_unlike(m),
        to_arrays: false,
        outranked: is_outranked(m),
        no_way_back: p.is_number() && is_back(m),
        wanted: integers(met(m)),
    }
}

fn shifts_back(p: Shape, v: Shape) -> Changing
    ensures { result ≡ shifts_back p v }
{
    let by = amount(p, v);
    Changing {
        no_type: is_none(by),
        to_arrays: false,
        outranked: outranks(by),
        no_way_back: false,
        wanted: amount_wanted(by),
    }
}

fn adds_back(p: Operand, v: Operand) -> Changing
    ensures { result ≡ adds_back p v }
{
    if p.shape.is_pointer() {
        if v.shape.is_number() {
            fits(Want::Own)
        } else {
            unfit()
        }
    } else if p.shape.is_number() && seen(v).is_pointer() {
        Changing {
            to_arrays: to_array(v),
            no_way_back: true,
            ..fits(Want::Own)
        }
    } else {
        meets_back(p.shape, meet(p.shape, v.shape))
    }
}

fn subtracts_back(p: Operand, v: Operand) -> Changing
    ensures { result ≡ subtracts_back p v }
{
    if p.shape.is_pointer() {
        if v.shape.is_number() {
            fits(Want::Own)
        } else if seen(v).is_pointer() {
            Changing {
                no_type: !same_target(p.shape, seen(v)),
                to_arrays: to_array(v),
                outranked: false,
                no_way_back: true,
                wanted: Want::Own,
            }
        } else {
            unfit()
        }
    } else {
        meets_back(p.shape, meet(p.shape, v.shape))
    }
}

fn calculates_back(p: Operand, v: Operand) -> Changing
    ensures { result ≡ calculates_back p v }
{
    meets_back(p.shape, meet(p.shape, v.shape))
}

fn changes(op: BinOp, p: Operand, v: Operand) -> Changing
    ensures { result ≡ changes op p v }
{
    match op {
        BinOp::Add => adds_back(p, v),
        BinOp::Sub => subtracts_back(p, v),
        BinOp::Shl | BinOp::Shr => shifts_back(p.shape, v.shape),
        BinOp::Mul | BinOp::Div | BinOp::Rem | BinOp::And | BinOp::Xor | BinOp::Or => {
            calculates_back(p, v)
        }
        _ => unfit(),
    }
}

/// An assignment, with the operator of a compound one (C99, 6.5.16): 303, 308 to 311, 333.
pub fn assignment(
    alloc: Global,
    op: Option<BinOp>,
    p: Operand,
    v: Operand,
) -> Result<Judged, NoMemory>
    ensures { IfOk result (λ j. j ≡ assignment op p v) }
{
    match op {
        None => assigned(alloc, p, v),
        Some(op) => changing(alloc, op, p, changes(op, p, v)),
    }
}
