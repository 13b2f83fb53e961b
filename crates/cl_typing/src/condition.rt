//! Conditions, and what else of a statement is typed by a rule of its own.

ghost use Rattle.std.specs.Prelude.{◌≡◌, Some, None, IfOk, IfErr};
ghost use Rattle.clv_place.specs.declared.stop.Stop.TheVariants.{Out};
ghost use Rattle.cl_ast.specs.declared.statement.StmtNode.TheViews.{out-Stmt};
ghost use Rattle.cl_ast.specs.declared.statement.StmtNode.TheVariants as node;
ghost use Rattle.cl_builtins.specs.Found.{IsKnown};
ghost use Rattle.cl_make.specs.Ready.{Grows, IsReady};
ghost use Rattle.cl_rules.specs.Operands.{first_broken};
ghost use Rattle.cl_scope.specs.Scopes.{IsKnownEnv};
ghost use Rattle.cl_type_expr.specs.Offences.{at};
ghost use Rattle.cl_typing.specs.Answers.{MayBeIs, MayBeStops, ForConditionIs, ConditionIs, ConditionStops, AloneIs, AloneStops, LeavingIs, LeavingStops, SwitchIs, SwitchStops};
ghost use Rattle.cl_typing.specs.Statements.{tested_type, no_switch, return_tests_of};

use crate::setting::Setting;
use cl_ast::expression::Expr;
use cl_ast::statement::Stmt;
use cl_builtins::Gentype;
use cl_make::{Typed, converted, number, shaped};
use cl_rules::{Operand, Target, Want, first_broken, no_pointer, no_value, type_of};
use cl_scope::Names;
use cl_tree::{Shape, TExpr, TStmt, TStmtNode, promoted};
use cl_type_expr::expr;
use cl_types::TypeTable;
use clv_place::{Offence, Place, Stop};
use std::alloc::Global;

// An offence at a place.
pub(crate) fn out(code: u16, place: Place) -> Stop
    ensures { result ≡ Out (at code place) }
{
    Stop::Out(Offence { code, place })
}

// An expression that may be missing.
pub(crate) fn may_be(
    alloc: Global,
    e: &Option<Expr>,
    names: &mut Names,
    types: &mut TypeTable,
) -> Result<Option<TExpr>, Stop>
    requires known { IsKnownEnv types.old names.old }
    ensures ok { IfOk result (MayBeIs types.new names.old e.now names.new) }
    ensures out { IfErr result (MayBeStops types.new names.old e.now) }
    ensures grows { Grows types.old types.new }
{
    types.is_table();
    match e {
        Some(e) => Ok(Some(expr(alloc, e, false, names, types)?.tree)),
        None => Ok(None),
    }
}

// The condition of `for`, which is 1 where it is missing.
pub(crate) fn for_condition(
    alloc: Global,
    place: Place,
    e: &Option<Expr>,
    names: &mut Names,
    types: &mut TypeTable,
) -> Result<Typed, Stop>
    requires known { IsKnownEnv types.old names.old }
    ensures ok { IfOk result (ForConditionIs types.new place names.old e.now names.new) }
    ensures out { IfErr result (MayBeStops types.new names.old e.now) }
    ensures grows { Grows types.old types.new }
{
    types.is_table();
    match e {
        Some(e) => expr(alloc, e, false, names, types),
        None => Ok(number(Gentype::int(), 1, place, types)?),
    }
}

// The tree of a condition: 318 where it is no number.
pub(crate) fn condition(typed: Typed, place: Place) -> Result<TExpr, Stop>
    ensures ok { IfOk result (ConditionIs typed) }
    ensures out { IfErr result (ConditionStops typed place) }
{
    if !typed.operand.shape.is_number() {
        return Err(out(318, place));
    }
    Ok(typed.tree)
}

// The type of what is tested by a `switch`.
pub(crate) fn tested_type(s: Shape) -> Gentype
    ensures { result ≡ tested_type s }
{
    if s.is_number() {
        promoted(type_of(s))
    } else {
        Gentype::int()
    }
}

// Whether a value of this type isn't tested by a `switch` (318).
fn no_switch(s: Shape) -> bool
    ensures { result ≡ no_switch s }
{
    !s.is_number() || tested_type(s).bits > 32
}

// The tree of what is tested by a `switch`: 318 where it is no integer of at most 32 bits.
pub(crate) fn switched(
    alloc: Global,
    typed: Typed,
    place: Place,
    types: &mut TypeTable,
) -> Result<TExpr, Stop>
    requires ready { IsReady types.old typed }
    ensures ok { IfOk result (SwitchIs types.new typed) }
    ensures out { IfErr result (SwitchStops typed place) }
    ensures grows { Grows types.old types.new }
{
    types.is_table();
    let shape = typed.operand.shape;
    if no_switch(shape) {
        return Err(out(318, place));
    }
    let want = Want::Of(Shape::Integers(tested_type(shape)));
    Ok(converted(alloc, want, typed, types)?)
}

// A statement that is an expression.
pub(crate) fn expression(
    alloc: Global,
    p: Setting,
    s: &Stmt,
    e: &Expr,
    names: &mut Names,
    types: &mut TypeTable,
) -> Result<TStmt, Stop>
    requires known { IsKnownEnv types.old names.old }
    requires is { (out-Stmt s.now).node ≡ node.Expr e.now }
    ensures ok { IfOk result (AloneIs types.new p names.old s.now names.new) }
    ensures out { IfErr result (AloneStops types.new p names.old s.now) }
    ensures grows { Grows types.old types.new }
{
    types.is_table();
    let typed = expr(alloc, e, false, names, types)?;
    Ok(TStmt {
        place: s.place,
        node: TStmtNode::Expr(typed.tree),
    })
}

// The least code that `return` breaks, with its value or without.
fn return_broken(gives: Target, value: Option<Operand>) -> Option<u16>
    ensures { result ≡ first_broken (return_tests_of gives value) }
{
    match value {
        None => first_broken(&[(323, !gives.shape.is_void())]),
        Some(o) => {
            if gives.shape.is_void() {
                return first_broken(&[(323, true)]);
            }
            first_broken(&[(311, no_value(o, gives)), (333, no_pointer(o, gives))])
        }
    }
}

// A `return`, with its value or without: 311, 323, 333.
pub(crate) fn return_statement(
    alloc: Global,
    p: Setting,
    s: &Stmt,
    value: &Option<Expr>,
    names: &mut Names,
    types: &mut TypeTable,
) -> Result<TStmt, Stop>
    requires known { IsKnownEnv types.old names.old }
    requires result { IsKnown types.old p.result }
    requires is { (out-Stmt s.now).node ≡ node.Return value.now }
    ensures ok { IfOk result (AloneIs types.new p names.old s.now names.new) }
    ensures out { IfErr result (AloneStops types.new p names.old s.now) }
    ensures grows { Grows types.old types.new }
{
    types.is_table();
    match value {
        Some(e) => return_value(alloc, p, s, e, names, types),
        None => return_nothing(p, s, names, types),
    }
}

// A `return` with a value.
fn return_value(
    alloc: Global,
    p: Setting,
    s: &Stmt,
    e: &Expr,
    names: &mut Names,
    types: &mut TypeTable,
) -> Result<TStmt, Stop>
    requires known { IsKnownEnv types.old names.old }
    requires result { IsKnown types.old p.result }
    requires is { (out-Stmt s.now).node ≡ node.Return (Some e.now) }
    ensures ok { IfOk result (AloneIs types.new p names.old s.now names.new) }
    ensures out { IfErr result (AloneStops types.new p names.old s.now) }
    ensures grows { Grows types.old types.new }
{
    types.is_table();
    let typed = expr(alloc, e, false, names, types)?;
    types.is_table();
    let gives = shaped(types, p.result);
    if let Some(code) = return_broken(gives, Some(typed.operand)) {
        return Err(out(code, s.place));
    }
    let value = converted(alloc, Want::Type(p.result), typed, types)?;
    Ok(TStmt {
        place: s.place,
        node: TStmtNode::Return(Some(value)),
    })
}

// A `return` without a value.
fn return_nothing(p: Setting, s: &Stmt, names: &Names, types: &TypeTable) -> Result<TStmt, Stop>
    requires known { IsKnownEnv types.now names.now }
    requires result { IsKnown types.now p.result }
    requires is { (out-Stmt s.now).node ≡ node.Return None }
    ensures ok { IfOk result (AloneIs types.now p names.now s.now names.now) }
    ensures out { IfErr result (AloneStops types.now p names.now s.now) }
{
    types.is_table();
    let gives = shaped(types, p.result);
    if let Some(code) = return_broken(gives, None) {
        return Err(out(code, s.place));
    }
    Ok(TStmt {
        place: s.place,
        node: TStmtNode::Return(None),
    })
}

// A `break` or a `continue`, where it may stand or not: 319.
pub(crate) fn leaving(s: &Stmt, may: bool, node: TStmtNode) -> Result<TStmt, Stop>
    ensures ok { IfOk result (LeavingIs may (out-Stmt s.now).place node) }
    ensures out { IfErr result (LeavingStops may (out-Stmt s.now).place) }
{
    if !may {
        return Err(out(319, s.place));
    }
    Ok(TStmt {
        place: s.place,
        node,
    })
}
