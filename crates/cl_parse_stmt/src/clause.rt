//! Expressions with the marks round them.

ghost use Rattle.std.specs.Prelude.{◌≡◌, ◌<◌, length, true, IfOk, IfErr};
ghost use Rattle.cl_grammar.specs.Items.{EndsIn, RefusedAt, IsAt};
ghost use Rattle.cl_grammar.specs.StatementSymbols.{Bracketed, Clause};
ghost use Rattle.cl_grammar.specs.Symbols.{S};
ghost use Rattle.cl_parse_stmt.specs.Looks.{is_clause_end};
ghost use Rattle.cl_parse_stmt.specs.Readings.{Has, BracketsTree, ClauseTree};

use cl_ast::expression::Expr;
use cl_ast::statement::Stmt;
use cl_grammar::{ExprStop, Terminal};
use cl_parse_expr::Reader;
use std::alloc::Global;

/// What stands in the brackets of a `for`.
#[derive(Drop)]
pub struct ForHead {
    pub decl: Vec<Stmt>,
    pub first: Option<Expr>,
    pub cond: Option<Expr>,
    pub next: Option<Expr>,
}

// `"(" expr ")"`
pub fn bracketed(alloc: Global, reader: &Reader, at: usize) -> Result<(Expr, usize), ExprStop>
    requires ends { EndsIn reader.now }
    requires within { at < length reader.now }
    ensures ok { IfOk result (λ r. Has BracketsTree (S Bracketed) reader.now at r.1 r.0) }
    ensures out { IfErr result (RefusedAt (S Bracketed) reader.now at) }
{
    let inside = reader.expect(at, Terminal::OpenParen)?;
    let taken = reader.expr(alloc, inside)?;
    let next = reader.expect(taken.next, Terminal::CloseParen)?;
    Ok((taken.tree, next))
}

// `[expr]` and this mark, which is `;` or `)`.
pub fn clause(
    alloc: Global,
    reader: &Reader,
    at: usize,
    end: Terminal,
) -> Result<(Option<Expr>, usize), ExprStop>
    requires ends { EndsIn reader.now }
    requires within { at < length reader.now }
    requires mark { is_clause_end end ≡ true }
    ensures ok { IfOk result (λ r. Has (ClauseTree end) (S (Clause end)) reader.now at r.1 r.0) }
    ensures out { IfErr result (RefusedAt (S (Clause end)) reader.now at) }
{
    if reader.is_at(at, end) {
        let next = reader.expect(at, end)?;
        return Ok((None, next));
    }
    let taken = reader.expr(alloc, at)?;
    let behind = reader.expect(taken.next, end)?;
    Ok((Some(taken.tree), behind))
}
