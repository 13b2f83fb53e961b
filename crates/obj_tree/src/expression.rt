//! Expressions without pointers.

use crate::object::Root;
use cl_tree::NodeId;
use cl_types::{BinOp, Builtin, TypeId, UnOp};
use clv_num::Bits;
use clv_place::List;

/// A place: an object, and the steps that lead into it.
#[cycle(expression)]
#[derive(Drop)]
pub struct Access {
    pub root: Root,
    pub steps: Vec<Step>,
}

/// One step into an object: a member of a struct; an element of an array, or of what an argument points to; a single
/// step, of which the index is 0 wherever something is accessed; and last, components of a vector in the order written.
#[cycle(expression)]
#[derive(Drop)]
pub enum Step {
    Member(u32),
    Index(OExpr),
    Single(OExpr),
    Components(List<u8>),
}

/// A typed expression. No type is that of a pointer.
#[cycle(expression)]
#[derive(Drop)]
pub struct OExpr {
    pub ty: TypeId,
    pub node: ONode,
}

/// What an expression is. A place is evaluated before values, but behind the vector of `vstoreN`; the operands of a
/// list from left to right, and the indices of a call behind its other arguments.
#[cycle(expression)]
#[derive(Drop)]
pub enum ONode {
    /// What stands at a place.
    Read(Access),
    /// An assignment of one value, with the operator of a compound one.
    Assign {
        op: Option<BinOp>,
        to: Access,
        value: Vec<OExpr>,
    },
    Number(Bits),
    /// A conversion to the node's type.
    Convert(Vec<OExpr>),
    /// `++` and `--` have a place and no operand, and the other operators an operand and no place.
    Unary {
        op: UnOp,
        at: Option<Access>,
        args: Vec<OExpr>,
    },
    Binary {
        op: BinOp,
        args: Vec<OExpr>,
    },
    /// `?:`
    Cond(Vec<OExpr>),
    /// A vector literal.
    Vector(Vec<OExpr>),
    /// A call of a copy, with the arguments that are no pointers, the indices of those that are, and the objects in
    /// private memory that they lead to, by their numbers here; and the node of the text that it comes from.
    Call {
        copy: u32,
        plain: Vec<OExpr>,
        indices: Vec<OExpr>,
        privates: List<u32>,
        from: NodeId,
    },
    /// A call of a built-in function. It has a place where the function takes a pointer: that of an atomic, or of the
    /// first scalar that `vloadN` reads or `vstoreN` writes. A barrier has the node of the text that it comes from.
    Builtin {
        builtin: Builtin,
        at: Option<Access>,
        args: Vec<OExpr>,
        from: Option<NodeId>,
    },
    /// An element of an array's value.
    Index(Vec<OExpr>),
    /// A member of a struct's value.
    Member {
        member: u32,
        args: Vec<OExpr>,
    },
    /// Components of a vector's value, in the order written.
    Components {
        at: List<u8>,
        args: Vec<OExpr>,
    },
    /// An initialiser list in braces.
    Fill(Vec<OExpr>),
    Comma(Vec<OExpr>),
}
