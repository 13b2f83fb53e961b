//! Texts, and the blocks and declared names that they begin with.

use cl_ast::statement::{Stmt, StmtNode};
use cl_grammar::{ExprStop, TypeNames, lexemes};
use cl_lexer::lex;
use cl_parse_expr::Reader;
use cl_parse_stmt::{block, init_declors};
use clv_place::NoMemory;
use std::alloc::Global;

// A text, how many of its tokens are a block, what the first statement in it is, its column, and how many statements,
// names or sections that has in it; of a `for`, how many declarations.
type Read<'a> = (&'a [u8], usize, &'a str, u32, usize);

const READ: [Read<'static>; 18] = [
    (b"{ }", 2, "none", 0, 0),
    (b"{ ; }", 3, "empty", 3, 0),
    (b"{ { a ; } b ; }", 8, "block", 3, 1),
    (b"{ int ; }", 4, "declaration", 3, 0),
    (
        b"{ int a , * b [ 2 ] = { 1 , { 2 } , } ; }",
        20,
        "declaration",
        3,
        2,
    ),
    (b"{ a = b ; } c", 6, "expression", 3, 0),
    (b"{ if ( a ) b ; else c ; }", 11, "if", 3, 2),
    (b"{ if ( a ) if ( b ) c ; else d ; }", 15, "if", 3, 1),
    (b"{ if ( a ) while ( b ) ; else c ; }", 14, "if", 3, 2),
    (b"{ while ( a ) ; }", 7, "while", 3, 1),
    (b"{ do a ; while ( b ) ; }", 10, "do", 3, 1),
    (b"{ for ( int i = 0 ; ; ) ; }", 12, "for", 3, 1),
    (b"{ for ( a ; b ; c ) ; }", 11, "for", 3, 0),
    (
        b"{ switch ( a ) { case 1 : default : b ; c ; case 2 : } }",
        20,
        "switch",
        3,
        2,
    ),
    (b"{ break ; }", 4, "break", 3, 0),
    (b"{ continue ; }", 4, "continue", 3, 0),
    (b"{ return ; }", 4, "return", 3, 0),
    (b"{ return a , b ; }", 7, "return", 3, 1),
];

// A text, and the index of the token at which no block goes on.
type Refused<'a> = (&'a [u8], usize);

const REFUSED: [Refused<'static>; 16] = [
    (b"a", 0),
    (b"{ case 1 : }", 1),
    (b"{ else ; }", 1),
    (b"{ break a ; }", 2),
    (b"{ return", 2),
    (b"{ { a ; }", 5),
    (b"{ do a ; ( b ) ; }", 4),
    (b"{ int a = { } ; }", 5),
    (b"{ int a = { 1 , , } ; }", 7),
    (b"{ int a b ; }", 3),
    (b"{ if ( a ) int x ; }", 5),
    (b"{ if ( a ) b ; else c ; else d ; }", 10),
    (b"{ for ( int ; ; ) ; }", 4),
    (b"{ switch ( a ) b ; }", 5),
    (b"{ switch ( a ) { b ; } }", 6),
    (b"{ switch ( a ) { case b = 1 : } }", 8),
];

fn shape(tree: &Stmt) -> (&'static str, usize) {
    match &tree.node {
        StmtNode::Block(body) => ("block", body.len()),
        StmtNode::Decl { spec: _, items } => ("declaration", items.len()),
        StmtNode::Expr(_) => ("expression", 0),
        StmtNode::If { cond: _, arms } => ("if", arms.len()),
        StmtNode::While { cond: _, body } => ("while", body.len()),
        StmtNode::Do { body, cond: _ } => ("do", body.len()),
        StmtNode::For {
            decl,
            first: _,
            cond: _,
            next: _,
            body: _,
        } => ("for", decl.len()),
        StmtNode::Switch { value: _, sections } => ("switch", sections.len()),
        StmtNode::Break => ("break", 0),
        StmtNode::Continue => ("continue", 0),
        StmtNode::Return(None) => ("return", 0),
        StmtNode::Return(Some(_)) => ("return", 1),
        StmtNode::Empty => ("empty", 0),
    }
}

// What the first statement of a block is, its column, and the number of its parts.
fn first(tree: &Stmt) -> (&'static str, u32, usize) {
    match &tree.node {
        StmtNode::Block(body) => match body.first() {
            Some(stmt) => {
                let (kind, parts) = shape(stmt);
                (kind, stmt.place.col, parts)
            }
            None => ("none", 0, 0),
        },
        _ => ("no block", 0, 0),
    }
}

// A list of one statement.
#[tactic(none)]
fn one(alloc: Global, only: Stmt) -> Result<Vec<Stmt>, NoMemory> {
    let mut stmts = Vec::new(alloc);
    stmts.push(only)?;
    Ok(stmts)
}

// The block at the start of a text, and the number of its tokens. It stands in a list, whose drop is one call: a
// statement's own is a step for each part that it may have.
#[tactic(none)]
fn block_of(alloc: Global, text: &[u8]) -> Result<(Vec<Stmt>, usize), ExprStop> {
    let names = TypeNames::new(alloc);
    let Ok(tokens) = lex(alloc, text) else {
        return Err(ExprStop::NoMemory);
    };
    let seen = lexemes(alloc, tokens.list.as_slice(), tokens.end)?;
    let reader = Reader::new(seen.as_slice(), &names);
    let (tree, next) = block(alloc, &reader, 0)?;
    Ok((one(alloc, tree)?, next))
}

// How many tokens were read, and what `first` tells of them.
type Found = (usize, &'static str, u32, usize);

fn found(alloc: Global, text: &[u8]) -> Result<Found, ExprStop> {
    let (trees, next) = block_of(alloc, text)?;
    let (kind, col, parts) = match trees.first() {
        Some(tree) => first(tree),
        None => ("nothing", 0, 0),
    };
    Ok((next, kind, col, parts))
}

#[test]
fn reads_blocks(rt: HostRuntime) {
    for (text, next, kind, col, parts) in READ {
        let wanted = Ok((next, kind, col, parts));
        assert_eq!(rt; found(rt.alloc(), text), wanted, "{text:?}");
    }
}

#[test]
fn refuses_blocks(rt: HostRuntime) {
    for (text, at) in REFUSED {
        let wanted = Err(ExprStop::Out { at });
        assert_eq!(rt; found(rt.alloc(), text), wanted, "{text:?}");
    }
}

// A text, and how many names of how many tokens it declares, or where it doesn't go on.
type Declared<'a> = (&'a [u8], Result<(usize, usize), ExprStop>);

const DECLARED: [Declared<'static>; 6] = [
    (b"a", Ok((1, 1))),
    (b"a , b = 1 ;", Ok((2, 5))),
    (b"* const a [ ] = { 1 } , b )", Ok((2, 11))),
    (b"a ,", Err(ExprStop::Out { at: 2 })),
    (b"a = ;", Err(ExprStop::Out { at: 2 })),
    (b"int", Err(ExprStop::Out { at: 0 })),
];

// How many names of how many tokens stand at the start of a text.
#[tactic(none)]
fn declared_in(alloc: Global, text: &[u8]) -> Result<(usize, usize), ExprStop> {
    let names = TypeNames::new(alloc);
    let Ok(tokens) = lex(alloc, text) else {
        return Err(ExprStop::NoMemory);
    };
    let seen = lexemes(alloc, tokens.list.as_slice(), tokens.end)?;
    let reader = Reader::new(seen.as_slice(), &names);
    let (items, next) = init_declors(alloc, &reader, 0)?;
    Ok((items.len(), next))
}

#[test]
fn reads_declared_names(rt: HostRuntime) {
    for (text, wanted) in DECLARED {
        assert_eq!(rt; declared_in(rt.alloc(), text), wanted, "{text:?}");
    }
}
