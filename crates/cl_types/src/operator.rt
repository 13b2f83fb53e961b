//! Operators (OpenCL C 1.2, 6.3).

/// An operator on one operand. `Sizeof` stands in syntax trees alone.
#[derive(Clone, Copy, PartialEq, Eq, Debug)]
pub enum UnOp {
    Plus,
    Minus,
    Not,
    LogicalNot,
    Deref,
    Address,
    PreInc,
    PreDec,
    PostInc,
    PostDec,
    Sizeof,
}

/// An operator between two operands.
#[derive(Clone, Copy, PartialEq, Eq, Debug)]
pub enum BinOp {
    Mul,
    Div,
    Rem,
    Add,
    Sub,
    Shl,
    Shr,
    Less,
    Greater,
    LessEqual,
    GreaterEqual,
    Equal,
    NotEqual,
    And,
    Xor,
    Or,
    LogicalAnd,
    LogicalOr,
}
