//! Statements and blocks.

ghost use Rattle.std.specs.Prelude.{◌≡◌, ◌<◌, length, IfOk, IfErr};
ghost use Rattle.cl_grammar.specs.Items.{EndsIn, RefusedAt, IsAt};
ghost use Rattle.cl_grammar.specs.StatementSymbols.{Block, Items, Item, Statement, Sections};
ghost use Rattle.cl_grammar.specs.StatementTrees.{BlockTree, ItemTree};
ghost use Rattle.cl_grammar.specs.Symbols.{S};
ghost use Rattle.cl_grammar.specs.declared.terminal.Terminal.TheVariants as words;
ghost use Rattle.cl_parse_stmt.specs.Readings.{Has, HasStmt, HasItems, HasSections};

use crate::clause::bracketed;
use crate::declaration::declaration;
use crate::label::labels;
use crate::list::{one, with};
use crate::look::{Kind, begins_else, begins_label, begins_type, ends_items, kind_at};
use crate::simple::{
    break_statement, continue_statement, expression_statement, for_head, return_statement,
};
use cl_ast::statement::{Group, Stmt, StmtNode};
use cl_grammar::{ExprStop, Terminal};
use cl_parse_expr::Reader;
use std::alloc::Global;

/// The block at an index, and the index behind it (C99 6.8.2). Indices are of tokens, from 0. It is refused at the
/// first token at which no block goes on, and else fails for want of memory alone.
#[tactic(none)]
#[cycle(statements)]
pub fn block(alloc: Global, reader: &Reader, at: usize) -> Result<(Stmt, usize), ExprStop>
    requires ends { EndsIn reader.now }
    requires within { at < length reader.now }
    ensures ok { IfOk result (λ r. Has BlockTree (S Block) reader.now at r.1 r.0) }
    ensures out { IfErr result (RefusedAt (S Block) reader.now at) }
{
    let place = reader.place(at);
    let inside = reader.expect(at, Terminal::OpenBrace)?;
    let (body, here) = items(alloc, reader, inside)?;
    let next = reader.expect(here, Terminal::CloseBrace)?;
    let node = StmtNode::Block(body);
    Ok((Stmt { place, node }, next))
}

// `{item}`
#[tactic(none)]
#[cycle(statements)]
fn items(alloc: Global, reader: &Reader, at: usize) -> Result<(Vec<Stmt>, usize), ExprStop>
    requires ends { EndsIn reader.now }
    requires within { at < length reader.now }
    ensures ok { IfOk result (λ r. HasItems reader.now at r.1 r.0.items) }
    ensures out { IfErr result (RefusedAt (S Items) reader.now at) }
{
    let mut body = Vec::new(alloc);
    let mut here = at;
    while !ends_items(reader, here) {
        let (next, behind) = item(alloc, reader, here)?;
        body.push(next)?;
        here = behind;
    }
    Ok((body, here))
}

// `spec [inits] ";" | stmt`
#[tactic(none)]
#[cycle(statements)]
fn item(alloc: Global, reader: &Reader, at: usize) -> Result<(Stmt, usize), ExprStop>
    requires ends { EndsIn reader.now }
    requires within { at < length reader.now }
    ensures ok { IfOk result (λ r. Has ItemTree (S Item) reader.now at r.1 r.0) }
    ensures out { IfErr result (RefusedAt (S Item) reader.now at) }
{
    if begins_type(reader, at) {
        declaration(alloc, reader, at)
    } else {
        let (tree, next) = statement(alloc, reader, at)?;
        Ok((tree, next))
    }
}

// A statement, whose first token tells which.
#[tactic(none)]
#[cycle(statements)]
fn statement(alloc: Global, reader: &Reader, at: usize) -> Result<(Stmt, usize), ExprStop>
    requires ends { EndsIn reader.now }
    requires within { at < length reader.now }
    ensures ok { IfOk result (λ r. HasStmt reader.now at r.1 r.0) }
    ensures out { IfErr result (RefusedAt (S Statement) reader.now at) }
{
    match kind_at(reader, at) {
        Kind::Block => {
            let (tree, next) = block(alloc, reader, at)?;
            Ok((tree, next))
        }
        Kind::If => if_statement(alloc, reader, at),
        Kind::While => while_statement(alloc, reader, at),
        Kind::For => for_statement(alloc, reader, at),
        Kind::Do => do_statement(alloc, reader, at),
        Kind::Switch => switch_statement(alloc, reader, at),
        Kind::Break => break_statement(reader, at),
        Kind::Continue => continue_statement(reader, at),
        Kind::Return => return_statement(alloc, reader, at),
        Kind::Expression => expression_statement(alloc, reader, at),
    }
}

// `"if" "(" expr ")" stmt ["else" stmt]`: an `else` belongs to the nearest `if`.
#[tactic(none)]
#[cycle(statements)]
fn if_statement(alloc: Global, reader: &Reader, at: usize) -> Result<(Stmt, usize), ExprStop>
    requires ends { EndsIn reader.now }
    requires within { at < length reader.now }
    requires begins { IsAt reader.now at words.If }
    ensures ok { IfOk result (λ r. HasStmt reader.now at r.1 r.0) }
    ensures out { IfErr result (RefusedAt (S Statement) reader.now at) }
{
    let place = reader.place(at);
    let here = reader.expect(at, Terminal::If)?;
    let (cond, behind) = bracketed(alloc, reader, here)?;
    let (first, next) = statement(alloc, reader, behind)?;
    let arm = one(alloc, first)?;
    if begins_else(reader, next) {
        let then = reader.expect(next, Terminal::Else)?;
        let (second, last) = statement(alloc, reader, then)?;
        let arms = with(arm, second)?;
        let node = StmtNode::If { cond, arms };
        Ok((Stmt { place, node }, last))
    } else {
        let node = StmtNode::If { cond, arms: arm };
        Ok((Stmt { place, node }, next))
    }
}

// `"while" "(" expr ")" stmt`
#[tactic(none)]
#[cycle(statements)]
fn while_statement(alloc: Global, reader: &Reader, at: usize) -> Result<(Stmt, usize), ExprStop>
    requires ends { EndsIn reader.now }
    requires within { at < length reader.now }
    requires begins { IsAt reader.now at words.While }
    ensures ok { IfOk result (λ r. HasStmt reader.now at r.1 r.0) }
    ensures out { IfErr result (RefusedAt (S Statement) reader.now at) }
{
    let place = reader.place(at);
    let here = reader.expect(at, Terminal::While)?;
    let (cond, behind) = bracketed(alloc, reader, here)?;
    let (inner, next) = statement(alloc, reader, behind)?;
    let body = one(alloc, inner)?;
    let node = StmtNode::While { cond, body };
    Ok((Stmt { place, node }, next))
}

// `"for" "(" .. ")" stmt`
#[tactic(none)]
#[cycle(statements)]
fn for_statement(alloc: Global, reader: &Reader, at: usize) -> Result<(Stmt, usize), ExprStop>
    requires ends { EndsIn reader.now }
    requires within { at < length reader.now }
    requires begins { IsAt reader.now at words.For }
    ensures ok { IfOk result (λ r. HasStmt reader.now at r.1 r.0) }
    ensures out { IfErr result (RefusedAt (S Statement) reader.now at) }
{
    let place = reader.place(at);
    let (head, behind) = for_head(alloc, reader, at)?;
    let (inner, end) = statement(alloc, reader, behind)?;
    let body = one(alloc, inner)?;
    let node = StmtNode::For {
        decl: head.decl,
        first: head.first,
        cond: head.cond,
        next: head.next,
        body,
    };
    Ok((Stmt { place, node }, end))
}

// `"do" stmt "while" "(" expr ")" ";"`
#[tactic(none)]
#[cycle(statements)]
fn do_statement(alloc: Global, reader: &Reader, at: usize) -> Result<(Stmt, usize), ExprStop>
    requires ends { EndsIn reader.now }
    requires within { at < length reader.now }
    requires begins { IsAt reader.now at words.Do }
    ensures ok { IfOk result (λ r. HasStmt reader.now at r.1 r.0) }
    ensures out { IfErr result (RefusedAt (S Statement) reader.now at) }
{
    let place = reader.place(at);
    let here = reader.expect(at, Terminal::Do)?;
    let (inner, then) = statement(alloc, reader, here)?;
    let body = one(alloc, inner)?;
    let behind = reader.expect(then, Terminal::While)?;
    let (cond, last) = bracketed(alloc, reader, behind)?;
    let next = reader.expect(last, Terminal::Semicolon)?;
    let node = StmtNode::Do { body, cond };
    Ok((Stmt { place, node }, next))
}

// `"switch" "(" expr ")" "{" {label {label} {item}} "}"`
#[tactic(none)]
#[cycle(statements)]
fn switch_statement(alloc: Global, reader: &Reader, at: usize) -> Result<(Stmt, usize), ExprStop>
    requires ends { EndsIn reader.now }
    requires within { at < length reader.now }
    requires begins { IsAt reader.now at words.Switch }
    ensures ok { IfOk result (λ r. HasStmt reader.now at r.1 r.0) }
    ensures out { IfErr result (RefusedAt (S Statement) reader.now at) }
{
    let place = reader.place(at);
    let here = reader.expect(at, Terminal::Switch)?;
    let (value, behind) = bracketed(alloc, reader, here)?;
    let inside = reader.expect(behind, Terminal::OpenBrace)?;
    let (groups, last) = sections(alloc, reader, inside)?;
    let next = reader.expect(last, Terminal::CloseBrace)?;
    let node = StmtNode::Switch {
        value,
        sections: groups,
    };
    Ok((Stmt { place, node }, next))
}

// `{label {label} {item}}`: labels that stand together are labels of one section.
#[tactic(none)]
#[cycle(statements)]
fn sections(alloc: Global, reader: &Reader, at: usize) -> Result<(Vec<Group>, usize), ExprStop>
    requires ends { EndsIn reader.now }
    requires within { at < length reader.now }
    ensures ok { IfOk result (λ r. HasSections reader.now at r.1 r.0.items) }
    ensures out { IfErr result (RefusedAt (S Sections) reader.now at) }
{
    let mut groups = Vec::new(alloc);
    let mut here = at;
    while begins_label(reader, here) {
        let (first, then) = labels(alloc, reader, here)?;
        let (rest, behind) = items(alloc, reader, then)?;
        groups.push(Group {
            labels: first,
            body: rest,
        })?;
        here = behind;
    }
    Ok((groups, here))
}
