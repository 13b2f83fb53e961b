//! Typed expressions.

use cl_types::{BinOp, Builtin, Space, TypeId, UnOp};
use clv_num::Bits;
use clv_place::{List, Place};

/// A typed expression: its type, the place of its operator or of its only token, and what it is. A conversion
/// that nothing in the text asks for has the place of what it converts.
#[cycle(expression)]
#[derive(Drop)]
pub struct TExpr {
    pub ty: TypeId,
    pub place: Place,
    pub node: TNode,
}

/// What a typed expression is, with its operands in text order.
#[cycle(expression)]
#[derive(Drop)]
pub enum TNode {
    /// A parameter, a variable of the function or a constant of the unit, by its number.
    Param(u32),
    Var(u32),
    Constant(u32),
    Number(Bits),
    /// A conversion to the node's type: an implicit one where the type of an operand isn't the one wanted, or
    /// a cast.
    Convert(Vec<TExpr>),
    Unary { op: UnOp, args: Vec<TExpr> },
    Binary { op: BinOp, args: Vec<TExpr> },
    /// An assignment, with the operator of a compound one.
    Assign { op: Option<BinOp>, args: Vec<TExpr> },
    /// `?:`
    Cond(Vec<TExpr>),
    /// A vector literal.
    Vector(Vec<TExpr>),
    Call { function: u32, args: Vec<TExpr> },
    Builtin { builtin: Builtin, args: Vec<TExpr> },
    Index(Vec<TExpr>),
    /// A member of a struct; `p->m` is the member of `*p`.
    Member { member: u32, args: Vec<TExpr> },
    /// Components of a vector, in the order written.
    Components { at: List<u8>, args: Vec<TExpr> },
    /// An initialiser list in braces.
    Fill(Vec<TExpr>),
    Comma(Vec<TExpr>),
}

/// What an operator has to know of an operand: its type; the address space that it lies in, where it is a place
/// (an lvalue: C99, 6.3.2.1); and whether it is a selection of components.
#[derive(Clone, Copy, PartialEq, Eq, Debug)]
pub struct Facts {
    pub ty: TypeId,
    pub lies: Option<Space>,
    pub component: bool,
}
