//! Expressions with their first offences.
//!
//! An expression is written with the operands of a node before it: a number, a name, an operator, `sizeof`, `(int)`,
//! a member as `.m` or `->m`, a vector literal as `int4/2` and a call as `call/1`, with how many operands they have.

use cl_ast::expression::{Base, Expr, ExprNode, Spec, TypeTerm};
use cl_scope::Scope;
use cl_type_expr::type_expr;
use cl_types::{BinOp, TypeTable, UnOp};
use clv_place::{List, NoMemory, Place, Stop, Text};
use std::alloc::Global;
use std::test::Fail;

// Expressions, and the code of the first offence of each, or 0 where there is none.
const CASES: [(&str, u16); 20] = [
    ("1", 0),
    ("1 2 +", 0),
    ("1 2 int4/2 +", 331),
    ("zz", 301),
    ("1 zz +", 301),
    ("7 int4/1 3 []", 0),
    ("7 int4/1 4 []", 307),
    ("7 int4/1 1 0 / []", 334),
    ("7 int4/1 .xx", 0),
    ("7 int4/1 .xx 1 =", 307),
    ("7 int4/1 .x 1 =", 310),
    ("7 int4/1 ->x", 313),
    ("1 .x", 306),
    ("7 int4/1 sizeof", 0),
    ("7 int4/1 (int)", 311),
    ("1 barrier/1", 0),
    ("4 barrier/1", 330),
    ("1 0 / barrier/1", 334),
    ("1 nothing/1", 301),
    ("abs/0", 329),
];

// The words of a type, without qualifiers.
fn term(alloc: Global, base: Base) -> TypeTerm {
    TypeTerm {
        spec: Spec {
            quals: List::new(alloc),
            base,
        },
        star: None,
    }
}

fn int() -> Base {
    Base::Int {
        bits: 32,
        signed: true,
    }
}

fn int4() -> Base {
    Base::Vector {
        bits: 32,
        signed: true,
        n: 4,
    }
}

fn text(alloc: Global, word: &str) -> Result<Text, NoMemory> {
    Text::from_bytes(alloc, word.as_bytes())
}

// A member behind `.` or `->`.
fn member(alloc: Global, word: &str) -> Result<Option<ExprNode>, NoMemory> {
    if let Some(name) = word.strip_prefix(".") {
        return Ok(Some(ExprNode::Member {
            name: text(alloc, name)?,
            arrow: false,
        }));
    }
    match word.strip_prefix("->") {
        Some(name) => Ok(Some(ExprNode::Member {
            name: text(alloc, name)?,
            arrow: true,
        })),
        None => Ok(None),
    }
}

// An operator, with how many operands it has.
fn operator(alloc: Global, word: &str) -> Option<(ExprNode, usize)> {
    match word {
        "+" => Some((ExprNode::Binary(BinOp::Add), 2)),
        "/" => Some((ExprNode::Binary(BinOp::Div), 2)),
        "=" => Some((ExprNode::Assign(None), 2)),
        "[]" => Some((ExprNode::Index, 2)),
        "sizeof" => Some((ExprNode::Unary(UnOp::Sizeof), 1)),
        "(int)" => Some((ExprNode::Cast(term(alloc, int())), 1)),
        _ => None,
    }
}

// A vector literal or a call.
fn call(alloc: Global, word: &str) -> Result<Option<(ExprNode, usize)>, NoMemory> {
    let Some((name, digits)) = word.split_once("/") else {
        return Ok(None);
    };
    let Ok(count) = digits.parse::<usize>() else {
        return Ok(None);
    };
    if name == "int4" {
        return Ok(Some((ExprNode::Vector(term(alloc, int4())), count)));
    }
    Ok(Some((ExprNode::Call(text(alloc, name)?), count)))
}

// A node, with how many operands it has.
fn node(alloc: Global, word: &str) -> Result<(ExprNode, usize), NoMemory> {
    if let Some(found) = operator(alloc, word) {
        return Ok(found);
    }
    if let Some(found) = member(alloc, word)? {
        return Ok((found, 1));
    }
    if let Some(found) = call(alloc, word)? {
        return Ok(found);
    }
    match word.parse() {
        Ok(value) => Ok((ExprNode::Number { value, ty: 0 }, 0)),
        Err(_) => Ok((ExprNode::Name(text(alloc, word)?), 0)),
    }
}

// The last operands, in their order.
fn last(alloc: Global, stack: &mut Vec<Expr>, count: usize) -> Result<Vec<Expr>, NoMemory> {
    let mut args = Vec::new(alloc);
    for _arg in 0..count {
        if let Some(e) = stack.pop() {
            args.push(e)?;
        }
    }
    args.reverse();
    Ok(args)
}

fn expression(alloc: Global, words: &str) -> Result<Option<Expr>, NoMemory> {
    let mut stack = Vec::new(alloc);
    for word in words.split(" ") {
        let (node, count) = node(alloc, word)?;
        let args = last(alloc, &mut stack, count)?;
        stack.push(Expr {
            place: Place { line: 1, col: 1 },
            node,
            args,
        })?;
    }
    Ok(stack.pop())
}

// The code of the first offence where nothing is declared, or 0.
fn code(alloc: Global, words: &str) -> Result<u16, NoMemory> {
    let mut types = TypeTable::new(alloc)?;
    let scope = Scope {
        blocks: List::new(alloc),
        functions: List::new(alloc),
    };
    let Some(e) = expression(alloc, words)? else {
        return Ok(1);
    };
    match type_expr(alloc, &e, &scope, &mut types) {
        Ok(_) => Ok(0),
        Err(Stop::Out(offence)) => Ok(offence.code),
        Err(Stop::NoMemory) => Err(NoMemory),
    }
}

#[test]
fn first_offences(rt: HostRuntime) -> Result<(), Fail> {
    for (words, wanted) in CASES {
        assert_eq!(rt; code(rt.alloc(), words)?, wanted, "{words}");
    }
    Ok(())
}
