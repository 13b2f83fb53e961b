//! Typed statements.

use crate::expression::TExpr;
use clv_place::Place;

/// A typed statement, with the place of its keyword, or of its first token where it has none. The place of a
/// declaration is its declared name.
#[cycle(statement)]
#[derive(Drop)]
pub struct TStmt {
    pub place: Place,
    pub node: TStmtNode,
}

/// What a typed statement is.
#[cycle(statement)]
#[derive(Drop)]
pub enum TStmtNode {
    Block(Vec<TStmt>),
    /// The declaration of one variable of the function.
    Decl {
        var: u32,
        init: Option<TExpr>,
    },
    Expr(TExpr),
    /// One arm, or two where there is an `else`.
    If {
        cond: TExpr,
        arms: Vec<TStmt>,
    },
    While {
        cond: TExpr,
        body: Vec<TStmt>,
    },
    Do {
        body: Vec<TStmt>,
        cond: TExpr,
    },
    /// A condition that the text leaves out is the number 1.
    For {
        decls: Vec<TStmt>,
        first: Option<TExpr>,
        cond: TExpr,
        next: Option<TExpr>,
        body: Vec<TStmt>,
    },
    Switch {
        value: TExpr,
        sections: Vec<Section>,
    },
    Break,
    Continue,
    Return(Option<TExpr>),
    Empty,
}

/// The values of a section's labels, none for `default`, and the statements behind them.
#[cycle(statement)]
#[derive(Drop)]
pub struct Section {
    pub labels: Vec<Option<TExpr>>,
    pub body: Vec<TStmt>,
}
