//! Functions as their meaning sees them. Each node of an expression has its number in its function, from 0 in text
//! order with operands before their node; a variable in local memory has its number among these; and each label of a
//! `switch` has its value.

use cl_types::{BinOp, Builtin, TypeId, UnOp};
use clv_place::List;

/// What a node is: a parameter, a variable in private or in local memory, a constant of the unit, each by its number;
/// a literal, by its pattern; and so on, a selection with the numbers of its components in the order written.
#[derive(Drop)]
pub enum Node {
    Param(u32),
    Var(u32),
    Local(u32),
    Constant(u32),
    Number(u64),
    Convert,
    Unary(UnOp),
    Binary(BinOp),
    Assign(Option<BinOp>),
    Cond,
    Vector,
    Call(u32),
    Builtin(Builtin),
    Index,
    Member(u32),
    Components(List<u8>),
    Fill,
    Comma,
}

/// A node, its type, its number, and its operands in text order.
#[derive(Drop)]
pub struct Expr {
    pub node: Node,
    pub ty: TypeId,
    pub number: u32,
    pub operands: Vec<Expr>,
}

/// `default`, or a case by the pattern of its value, which each case of a unit has.
#[derive(Clone, Copy)]
pub enum Label {
    Default,
    Case(Option<u64>),
}

/// A statement. A declaration without an initialiser makes a private variable unset, and does nothing to one in local
/// memory.
#[cycle(statement)]
#[derive(Drop)]
pub enum Stmt {
    Block(Vec<Stmt>),
    Declare(u32),
    Initialise(u32, Expr),
    Evaluate(Expr),
    If {
        test: Expr,
        on_true: Vec<Stmt>,
        on_false: Vec<Stmt>,
    },
    While {
        test: Expr,
        body: Vec<Stmt>,
    },
    Do {
        body: Vec<Stmt>,
        test: Expr,
    },
    For {
        declarations: Vec<Stmt>,
        first: Option<Expr>,
        test: Expr,
        next: Option<Expr>,
        body: Vec<Stmt>,
    },
    Switch {
        on: Expr,
        sections: Vec<Section>,
    },
    Break,
    Continue,
    Return(Option<Expr>),
    Empty,
}

/// The labels of a section, and the statements behind them.
#[cycle(statement)]
#[derive(Drop)]
pub struct Section {
    pub labels: List<Label>,
    pub body: Vec<Stmt>,
}

/// A function.
#[derive(Drop)]
pub struct Code {
    pub params: List<TypeId>,
    pub result: TypeId,
    pub body: Stmt,
}
