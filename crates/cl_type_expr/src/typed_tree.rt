//! The typed tree of an expression.

ghost use Rattle.std.specs.Prelude.{IfOk, IfErr, false};
ghost use Rattle.cl_make.specs.Ready.{Grows};
ghost use Rattle.cl_scope.specs.Scopes.{env_of, IsKnownEnv};
ghost use Rattle.cl_type_expr.specs.Scopes.{IsTypedTree};
ghost use Rattle.cl_type_expr.specs.Typing.{StopsIn};

use crate::expression::expr;
use cl_ast::expression::Expr;
use cl_scope::{Names, Scope};
use cl_tree::TExpr;
use cl_types::TypeTable;
use clv_place::Stop;
use std::alloc::Global;

/// The typed tree of an expression in a scope (C99, 6.5; OpenCL C 1.2, 6.3), or its first offence, but for want of
/// memory. The table keeps its types, also after a refusal, and may have more.
pub fn type_expr(
    alloc: Global,
    e: &Expr,
    scope: &Scope,
    types: &mut TypeTable,
) -> Result<TExpr, Stop>
    requires known { IsKnownEnv types.old (env_of scope.now) }
    ensures tree { IfOk result (IsTypedTree types.new (env_of scope.now) e.now) }
    ensures out { IfErr result (StopsIn types.new (env_of scope.now) false e.now) }
    ensures grows { Grows types.old types.new }
{
    types.is_table();
    let mut names = Names::of(alloc, scope)?;
    let typed = expr(alloc, e, false, &mut names, types)?;
    Ok(typed.tree)
}
