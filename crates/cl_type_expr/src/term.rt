//! Nodes behind a type in brackets: casts, vector literals and sizes.

ghost use Rattle.std.specs.Prelude.{◌≡◌, None, IfOk, IfErr};
ghost use Rattle.cl_ast.specs.declared.expression.Base.TheViews.{out-Expr};
ghost use Rattle.cl_ast.specs.declared.expression.ExprNode.TheVariants as node;
ghost use Rattle.cl_make.specs.Ready.{Grows, AreReady, IsReadyType};
ghost use Rattle.cl_rules.specs.Operands.{first_broken};
ghost use Rattle.cl_rules.specs.Calls.{size_tests};
ghost use Rattle.cl_type_expr.specs.Expressions.{term_size};
ghost use Rattle.cl_type_expr.specs.Typing.{TermNodeIs, TermNodeStops, SizeIs, SizeStops};

use crate::judge::operands_of;
use crate::node::{judged, out};
use cl_ast::expression::{Expr, TypeTerm};
use cl_builtins::Gentype;
use cl_make::{Typed, number};
use cl_rules::{Qualified, cast_rule, literal, size_broken};
use cl_scope::Names;
use cl_types::TypeTable;
use cl_words::restrict_behind;
use clv_place::Stop;
use std::alloc::Global;

// A cast: 303, 308, 311, 326, 333.
pub(crate) fn cast(
    alloc: Global,
    e: &Expr,
    left: bool,
    term: &TypeTerm,
    q: Qualified,
    operands: Vec<Typed>,
    names: &Names,
    types: &mut TypeTable,
) -> Result<Typed, Stop>
    requires type_ready { IsReadyType types.old q }
    requires ready { AreReady types.old operands.items }
    requires is { (out-Expr e.now).node ≡ node.Cast term.now }
    ensures ok { IfOk result (TermNodeIs types.new names.now left e.now term.now q operands.items) }
    ensures out { IfErr result (TermNodeStops types.new names.now left e.now term.now q operands.items) }
    ensures grows { Grows types.old types.new }
{
    types.is_table();
    let os = operands_of(alloc, &operands)?;
    let rule = cast_rule(alloc, q, restrict_behind(&term.star), os.as_slice())?;
    judged(alloc, rule, e.place, operands, types)
}

// A vector literal: 303, 311, 326, 331.
pub(crate) fn vector(
    alloc: Global,
    e: &Expr,
    left: bool,
    term: &TypeTerm,
    q: Qualified,
    operands: Vec<Typed>,
    names: &Names,
    types: &mut TypeTable,
) -> Result<Typed, Stop>
    requires type_ready { IsReadyType types.old q }
    requires ready { AreReady types.old operands.items }
    requires is { (out-Expr e.now).node ≡ node.Vector term.now }
    ensures ok { IfOk result (TermNodeIs types.new names.now left e.now term.now q operands.items) }
    ensures out { IfErr result (TermNodeStops types.new names.now left e.now term.now q operands.items) }
    ensures grows { Grows types.old types.new }
{
    types.is_table();
    let os = operands_of(alloc, &operands)?;
    let rule = literal(alloc, q, restrict_behind(&term.star), os.as_slice())?;
    judged(alloc, rule, e.place, operands, types)
}

// The bytes of a type in brackets.
fn term_size(q: Qualified, star: Option<bool>, types: &TypeTable) -> u32
    requires ready { IsReadyType types.now q }
    requires sized { first_broken (size_tests q star) ≡ None }
    ensures { result ≡ term_size types.now q star }
{
    match star {
        None => types.size(q.ty),
        Some(_) => 4,
    }
}

// `sizeof` of a type: 303, 326.
pub(crate) fn size_of_type(
    e: &Expr,
    left: bool,
    term: &TypeTerm,
    q: Qualified,
    names: &Names,
    types: &mut TypeTable,
) -> Result<Typed, Stop>
    requires type_ready { IsReadyType types.old q }
    requires is { (out-Expr e.now).node ≡ node.SizeofType term.now }
    ensures ok { IfOk result (SizeIs types.new names.now left e.now term.now q) }
    ensures out { IfErr result (SizeStops types.new names.now left e.now term.now q) }
    ensures grows { Grows types.old types.new }
{
    types.is_table();
    let star = restrict_behind(&term.star);
    if let Some(code) = size_broken(q, star) {
        return Err(out(code, e.place));
    }
    let size = term_size(q, star, types);
    Ok(number(Gentype::uint(), u64::from(size), e.place, types)?)
}
