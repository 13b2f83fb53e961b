//! Typed expressions with what their parents have to know.

use cl_rules::Operand;
use cl_tree::TExpr;

/// A typed expression, and what its parent has to know of it.
#[derive(Drop)]
pub struct Typed {
    pub tree: TExpr,
    pub operand: Operand,
}
