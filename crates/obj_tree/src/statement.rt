//! Statements without pointers.

use crate::expression::OExpr;
use clv_place::List;

/// A statement.
#[cycle(statement)]
#[derive(Drop)]
pub struct OStmt {
    pub node: OStmtNode,
}

/// What a statement is.
#[cycle(statement)]
#[derive(Drop)]
pub enum OStmtNode {
    Block(Vec<OStmt>),
    /// The declaration of a variable, by its number among the copy's variables; of the indices of a pointer variable;
    /// or of a variable in local memory, which has none. An initialiser is there only beside one variable.
    Decl {
        vars: List<u32>,
        init: Option<OExpr>,
    },
    Expr(OExpr),
    /// One arm, or two where there is an `else`.
    If {
        cond: OExpr,
        arms: Vec<OStmt>,
    },
    While {
        cond: OExpr,
        body: Vec<OStmt>,
    },
    Do {
        body: Vec<OStmt>,
        cond: OExpr,
    },
    For {
        decls: Vec<OStmt>,
        first: Option<OExpr>,
        cond: OExpr,
        next: Option<OExpr>,
        body: Vec<OStmt>,
    },
    Switch {
        value: OExpr,
        sections: Vec<Section>,
    },
    Break,
    Continue,
    Return(Option<OExpr>),
    Empty,
}

/// The values of a section's labels, none for `default`, and the statements behind them.
#[cycle(statement)]
#[derive(Drop)]
pub struct Section {
    pub labels: Vec<Option<OExpr>>,
    pub body: Vec<OStmt>,
}
