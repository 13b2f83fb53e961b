//! Declarations in blocks and at the head of a `for`.

ghost use Rattle.std.specs.Prelude.{◌≡◌, ◌<◌, length, IfOk, IfErr};
ghost use Rattle.cl_grammar.specs.Items.{EndsIn, RefusedAt};
ghost use Rattle.cl_grammar.specs.StatementSymbols.{BehindSpec, Item, ForStart};
ghost use Rattle.cl_grammar.specs.StatementTrees.{ItemTree};
ghost use Rattle.cl_grammar.specs.Symbols.{S};
ghost use Rattle.cl_parse_stmt.specs.Looks.{TypeAt};
ghost use Rattle.cl_parse_stmt.specs.Readings.{Has, NamesTree, DeclaresTree};

use crate::initialiser::init_declors;
use cl_ast::declaration::InitDeclor;
use cl_ast::statement::{Stmt, StmtNode};
use cl_grammar::{ExprStop, Terminal};
use cl_parse_expr::Reader;
use std::alloc::Global;

// `[inits] ";"`
fn names(alloc: Global, reader: &Reader, at: usize) -> Result<(Vec<InitDeclor>, usize), ExprStop>
    requires ends { EndsIn reader.now }
    requires within { at < length reader.now }
    ensures ok { IfOk result (λ r. Has NamesTree (S BehindSpec) reader.now at r.1 r.0.items) }
    ensures out { IfErr result (RefusedAt (S BehindSpec) reader.now at) }
{
    if reader.is_at(at, Terminal::Semicolon) {
        let next = reader.expect(at, Terminal::Semicolon)?;
        return Ok((Vec::new(alloc), next));
    }
    let (items, here) = init_declors(alloc, reader, at)?;
    let behind = reader.expect(here, Terminal::Semicolon)?;
    Ok((items, behind))
}

// `spec [inits] ";"`, behind which a block goes on.
pub fn declaration(alloc: Global, reader: &Reader, at: usize) -> Result<(Stmt, usize), ExprStop>
    requires ends { EndsIn reader.now }
    requires within { at < length reader.now }
    requires begins { TypeAt reader.now at }
    ensures ok { IfOk result (λ r. Has ItemTree (S Item) reader.now at r.1 r.0) }
    ensures out { IfErr result (RefusedAt (S Item) reader.now at) }
{
    let place = reader.place(at);
    let read = reader.spec(alloc, at)?;
    let (items, next) = names(alloc, reader, read.next)?;
    let spec = read.spec;
    let node = StmtNode::Decl { spec, items };
    Ok((Stmt { place, node }, next))
}

// `spec inits ";"`, behind which a `for` goes on.
pub fn named_declaration(
    alloc: Global,
    reader: &Reader,
    at: usize,
) -> Result<(Stmt, usize), ExprStop>
    requires ends { EndsIn reader.now }
    requires within { at < length reader.now }
    requires begins { TypeAt reader.now at }
    ensures ok { IfOk result (λ r. Has DeclaresTree (S ForStart) reader.now at r.1 r.0) }
    ensures out { IfErr result (RefusedAt (S ForStart) reader.now at) }
{
    let place = reader.place(at);
    let read = reader.spec(alloc, at)?;
    let (items, here) = init_declors(alloc, reader, read.next)?;
    let next = reader.expect(here, Terminal::Semicolon)?;
    let spec = read.spec;
    let node = StmtNode::Decl { spec, items };
    Ok((Stmt { place, node }, next))
}
