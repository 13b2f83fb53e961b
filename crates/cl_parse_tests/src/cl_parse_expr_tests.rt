//! Texts, and the expressions that they begin with.

use cl_ast::expression::{Expr, ExprNode};
use cl_lexer::lex;
use cl_parse_expr::{ExprStop, TypeNames, parse_expr};
use std::alloc::Global;

// A text, how many of its tokens are an expression, what that is, its column, and the number of its operands.
type Read<'a> = (&'a [u8], usize, &'a str, u32, usize);

const READ: [Read<'static>; 49] = [
    (b"a", 1, "name", 1, 0),
    (b"1u", 1, "number", 1, 0),
    (b"'c'", 1, "number", 1, 0),
    (b"( a )", 3, "name", 3, 0),
    (b"f ( )", 3, "call", 1, 0),
    (b"f ( a , 1 )", 6, "call", 1, 2),
    (b"a [ 1 , 2 ]", 6, "index", 3, 2),
    (b"a . m", 3, "member", 3, 1),
    (b"a -> m", 3, "member", 3, 1),
    (b"a ++", 2, "unary", 3, 1),
    (b"-- a", 2, "unary", 1, 1),
    (b"- ( int ) a", 5, "unary", 1, 1),
    (b"sizeof a", 2, "unary", 1, 1),
    (b"sizeof ( int * const )", 6, "sizeof type", 1, 0),
    (b"( T ) ( 1 ) . x", 8, "cast", 1, 1),
    (b"( V ) ( 1 , 2 )", 8, "vector", 1, 2),
    (b"( const int4 ) ( 1 , 2 )", 9, "vector", 1, 2),
    (b"( V ) a", 4, "cast", 1, 1),
    (b"( V * ) ( x )", 7, "cast", 1, 1),
    (b"a - b - c", 5, "binary", 7, 2),
    (b"a + b * c", 5, "binary", 3, 2),
    (b"a ? b : c ? d : e", 9, "cond", 3, 3),
    (b"a = b += c", 5, "assign", 3, 2),
    (b"- a = 1", 4, "assign", 5, 2),
    (b"a ++ = 1", 4, "assign", 6, 2),
    (b"sizeof a = 1", 4, "assign", 10, 2),
    (b"1 = 1", 3, "assign", 3, 2),
    (b"a , b , c", 5, "comma", 3, 3),
    (b"( struct { int x ; } * ) a", 10, "cast", 1, 1),
    (
        b"( struct S { int x , * const y [ 2 ] [ ] ; T t ; } ) a",
        22,
        "cast",
        1,
        1,
    ),
    (b"( unsigned short int ) a", 6, "cast", 1, 1),
    (b"a b", 1, "name", 1, 0),
    (b"a ;", 1, "name", 1, 0),
    (b"( int4 ) ( 1 ) . x", 6, "vector", 1, 1),
    (b"( int ) a = 1", 4, "cast", 1, 1),
    (b"a + b = c", 3, "binary", 3, 2),
    (b"( int4 ) ( 1 ) = a", 6, "vector", 1, 1),
    (b"a ? b : c = d", 5, "cond", 3, 3),
    (b"sizeof ( int ) ( 1 )", 4, "sizeof type", 1, 0),
    (b"sizeof ( int ) [ 0 ]", 4, "sizeof type", 1, 0),
    (b"sizeof ( int4 ) ( 1 )", 4, "sizeof type", 1, 0),
    (b"sizeof ( a ) [ 0 ]", 7, "unary", 1, 1),
    (b"sizeof ( int ) = 1", 6, "assign", 16, 2),
    (b"( f ) ( x )", 3, "name", 3, 0),
    (b"f ( x ) ( y )", 4, "call", 1, 1),
    (b"a [ 0 ] ( x )", 4, "index", 3, 2),
    (b"( void ) a . b", 6, "cast", 1, 1),
    (b"+ + a", 3, "unary", 1, 1),
    (b"a . b [ c ] -> d ++ --", 10, "unary", 21, 1),
];

// A text, and the index of the token at which no expression goes on.
type Refused<'a> = (&'a [u8], usize);

const REFUSED: [Refused<'static>; 21] = [
    (b"a ? b , c : d", 3),
    (b"( int4 ) ( int ) ( 1 )", 4),
    (b"a . T", 2),
    (b"a . int", 2),
    (b"( struct { T T ; } ) a", 4),
    (b"( struct { int x } ) a", 5),
    (b"( struct { } ) a", 3),
    (b"( struct ) a", 2),
    (b"( int unsigned ) a", 2),
    (b"( long long ) a", 2),
    (b"( unsigned const int ) a", 3),
    (b"( int a [ 1 = 2 ] )", 2),
    (b"( struct { int t [ 1 , 2 ] ; } ) a", 7),
    (b"( struct { int t [ a = 1 ] ; } ) a", 7),
    (b"a + ;", 2),
    (b"a [", 2),
    (b"f ( a ,", 4),
    (b"goto", 0),
    (b"float", 0),
    (b"a ? b", 3),
    (b"++ ( int ) a", 2),
];

// The typedefs before each text: `T` is no vector, and `V` is one.
fn typedefs(alloc: Global) -> Result<TypeNames, ExprStop> {
    let mut names = TypeNames::new(alloc);
    names.add(b"T", false)?;
    names.add(b"V", true)?;
    Ok(names)
}

fn kind(tree: &Expr) -> &'static str {
    match &tree.node {
        ExprNode::Name(_) => "name",
        ExprNode::Number { value: _, ty: _ } => "number",
        ExprNode::Unary(_) => "unary",
        ExprNode::Binary(_) => "binary",
        ExprNode::Assign(_) => "assign",
        ExprNode::Cond => "cond",
        ExprNode::Cast(_) => "cast",
        ExprNode::Vector(_) => "vector",
        ExprNode::Call(_) => "call",
        ExprNode::Index => "index",
        ExprNode::Member { name: _, arrow: _ } => "member",
        ExprNode::SizeofType(_) => "sizeof type",
        ExprNode::Comma => "comma",
    }
}

// How far an expression goes, what it is, its column, and the number of its operands.
type Found = (usize, &'static str, u32, usize);

// What is found among the tokens of a text from an index on, up to another one or the end.
fn found(alloc: Global, text: &[u8], at: usize, end: Option<usize>) -> Result<Found, ExprStop> {
    let names = typedefs(alloc)?;
    let Ok(tokens) = lex(alloc, text) else {
        return Err(ExprStop::NoMemory);
    };
    let count = tokens.list.len();
    let end = end.unwrap_or(count);
    if count < end || end < at {
        return Err(ExprStop::NoMemory);
    }
    let taken = parse_expr(alloc, &tokens, at, end, &names)?;
    let tree = &taken.tree;
    Ok((taken.next, kind(tree), tree.place.col, tree.args.len()))
}

#[test]
fn reads_the_longest_expression(rt: HostRuntime) {
    for (text, next, node, col, operands) in READ {
        let wanted = Ok((next, node, col, operands));
        assert_eq!(rt; found(rt.alloc(), text, 0, None), wanted, "{text:?}");
    }
}

#[test]
fn refuses_at_the_first_offence(rt: HostRuntime) {
    for (text, at) in REFUSED {
        let wanted = Err(ExprStop::Out { at });
        assert_eq!(rt; found(rt.alloc(), text, 0, None), wanted, "{text:?}");
    }
}

// Where a part of the tokens begins and ends, and what is found in it.
type Part = (usize, usize, Result<Found, ExprStop>);

const PARTS: [Part; 3] = [
    (1, 6, Ok((6, "binary", 9, 2))),
    (1, 3, Err(ExprStop::Out { at: 3 })),
    (9, 9, Err(ExprStop::Out { at: 9 })),
];

#[test]
fn reads_a_part_of_the_tokens(rt: HostRuntime) {
    for (at, end, wanted) in PARTS {
        let found = found(rt.alloc(), b"( a - b - c + T )", at, Some(end));
        assert_eq!(rt; found, wanted, "{at} {end}");
    }
}
