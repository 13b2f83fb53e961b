//! Statements.

use crate::declaration::InitDeclor;
use crate::expression::{Expr, Spec};
use clv_place::Place;

/// A statement, with the place of its keyword, or of its first token where it has none.
#[cycle(statement)]
#[derive(Drop)]
pub struct Stmt {
    pub place: Place,
    pub node: StmtNode,
}

/// What a statement is.
#[cycle(statement)]
#[derive(Drop)]
pub enum StmtNode {
    Block(Vec<Stmt>),
    Decl {
        spec: Spec,
        items: Vec<InitDeclor>,
    },
    Expr(Expr),
    /// One arm, or two where there is an `else`.
    If {
        cond: Expr,
        arms: Vec<Stmt>,
    },
    /// One statement in `body`, as for each loop.
    While {
        cond: Expr,
        body: Vec<Stmt>,
    },
    Do {
        body: Vec<Stmt>,
        cond: Expr,
    },
    /// A declaration in `decl`, or an expression in `first`, or neither.
    For {
        decl: Vec<Stmt>,
        first: Option<Expr>,
        cond: Option<Expr>,
        next: Option<Expr>,
        body: Vec<Stmt>,
    },
    Switch {
        value: Expr,
        sections: Vec<Group>,
    },
    Break,
    Continue,
    Return(Option<Expr>),
    Empty,
}

/// Labels of a `switch`, and the statements behind them.
#[cycle(statement)]
#[derive(Drop)]
pub struct Group {
    pub labels: Vec<Label>,
    pub body: Vec<Stmt>,
}

/// A `case` with its value, or `default`. Its place is its word.
#[derive(Drop)]
pub struct Label {
    pub place: Place,
    pub value: Option<Expr>,
}
