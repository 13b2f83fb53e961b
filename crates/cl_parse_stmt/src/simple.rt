//! Statements in which no statement stands, and the heads of `for`.

ghost use Rattle.std.specs.Prelude.{◌≡◌, ◌<◌, length, IfOk, IfErr};
ghost use Rattle.cl_grammar.specs.Items.{EndsIn, RefusedAt, IsAt};
ghost use Rattle.cl_grammar.specs.StatementSymbols.{ForStart, LoopHead, Statement};
ghost use Rattle.cl_grammar.specs.Symbols.{S};
ghost use Rattle.cl_grammar.specs.declared.terminal.Terminal.TheVariants as words;
ghost use Rattle.cl_parse_stmt.specs.Looks.{KindAt};
ghost use Rattle.cl_parse_stmt.specs.Readings.{Has, HasStmt, StartTree, ForHeadTree};
ghost use Rattle.cl_parse_stmt.specs.declared.look.Kind.TheVariants as kinds;

use crate::clause::{ForHead, clause};
use crate::declaration::named_declaration;
use crate::list::one;
use crate::look::begins_type;
use cl_ast::expression::Expr;
use cl_ast::statement::{Stmt, StmtNode};
use cl_grammar::{ExprStop, Terminal};
use cl_parse_expr::Reader;
use std::alloc::Global;

// What stands behind the `(` of a `for`, up to its first `;`: a declaration or an expression, or neither.
fn for_start(
    alloc: Global,
    reader: &Reader,
    at: usize,
) -> Result<((Vec<Stmt>, Option<Expr>), usize), ExprStop>
    requires ends { EndsIn reader.now }
    requires within { at < length reader.now }
    ensures ok { IfOk result (λ r. Has StartTree (S ForStart) reader.now at r.1 r.0) }
    ensures out { IfErr result (RefusedAt (S ForStart) reader.now at) }
{
    if begins_type(reader, at) {
        let (declared, next) = named_declaration(alloc, reader, at)?;
        let decl = one(alloc, declared)?;
        Ok(((decl, None), next))
    } else {
        let (first, behind) = clause(alloc, reader, at, Terminal::Semicolon)?;
        Ok(((Vec::new(alloc), first), behind))
    }
}

/// `"for" "(" .. ")"`
pub fn for_head(alloc: Global, reader: &Reader, at: usize) -> Result<(ForHead, usize), ExprStop>
    requires ends { EndsIn reader.now }
    requires within { at < length reader.now }
    requires begins { IsAt reader.now at words.For }
    ensures ok { IfOk result (λ r. Has ForHeadTree (S LoopHead) reader.now at r.1 r.0) }
    ensures out { IfErr result (RefusedAt (S LoopHead) reader.now at) }
{
    let here = reader.expect(at, Terminal::For)?;
    let inside = reader.expect(here, Terminal::OpenParen)?;
    let (start, second) = for_start(alloc, reader, inside)?;
    let (cond, third) = clause(alloc, reader, second, Terminal::Semicolon)?;
    let (next, behind) = clause(alloc, reader, third, Terminal::CloseParen)?;
    let (decl, first) = start;
    Ok((
        ForHead {
            decl,
            first,
            cond,
            next,
        },
        behind,
    ))
}

/// `"break" ";"`
pub fn break_statement(reader: &Reader, at: usize) -> Result<(Stmt, usize), ExprStop>
    requires ends { EndsIn reader.now }
    requires within { at < length reader.now }
    requires begins { IsAt reader.now at words.Break }
    ensures ok { IfOk result (λ r. HasStmt reader.now at r.1 r.0) }
    ensures out { IfErr result (RefusedAt (S Statement) reader.now at) }
{
    let place = reader.place(at);
    let here = reader.expect(at, Terminal::Break)?;
    let next = reader.expect(here, Terminal::Semicolon)?;
    let node = StmtNode::Break;
    Ok((Stmt { place, node }, next))
}

/// `"continue" ";"`
pub fn continue_statement(reader: &Reader, at: usize) -> Result<(Stmt, usize), ExprStop>
    requires ends { EndsIn reader.now }
    requires within { at < length reader.now }
    requires begins { IsAt reader.now at words.Continue }
    ensures ok { IfOk result (λ r. HasStmt reader.now at r.1 r.0) }
    ensures out { IfErr result (RefusedAt (S Statement) reader.now at) }
{
    let place = reader.place(at);
    let here = reader.expect(at, Terminal::Continue)?;
    let next = reader.expect(here, Terminal::Semicolon)?;
    let node = StmtNode::Continue;
    Ok((Stmt { place, node }, next))
}

/// `"return" [expr] ";"`
pub fn return_statement(
    alloc: Global,
    reader: &Reader,
    at: usize,
) -> Result<(Stmt, usize), ExprStop>
    requires ends { EndsIn reader.now }
    requires within { at < length reader.now }
    requires begins { IsAt reader.now at words.Return }
    ensures ok { IfOk result (λ r. HasStmt reader.now at r.1 r.0) }
    ensures out { IfErr result (RefusedAt (S Statement) reader.now at) }
{
    let place = reader.place(at);
    let here = reader.expect(at, Terminal::Return)?;
    let (value, next) = clause(alloc, reader, here, Terminal::Semicolon)?;
    let node = StmtNode::Return(value);
    Ok((Stmt { place, node }, next))
}

/// `[expr] ";"`
pub fn expression_statement(
    alloc: Global,
    reader: &Reader,
    at: usize,
) -> Result<(Stmt, usize), ExprStop>
    requires ends { EndsIn reader.now }
    requires within { at < length reader.now }
    requires begins { KindAt reader.now at kinds.Expression }
    ensures ok { IfOk result (λ r. HasStmt reader.now at r.1 r.0) }
    ensures out { IfErr result (RefusedAt (S Statement) reader.now at) }
{
    let place = reader.place(at);
    let (value, next) = clause(alloc, reader, at, Terminal::Semicolon)?;
    match value {
        Some(tree) => {
            let node = StmtNode::Expr(tree);
            Ok((Stmt { place, node }, next))
        }
        None => {
            let node = StmtNode::Empty;
            Ok((Stmt { place, node }, next))
        }
    }
}
