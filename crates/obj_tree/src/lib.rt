//! The dolls' house: object programs, which stand between typed trees and modules. There are no pointers in them: what
//! a pointer led to is an object with the members and indices that lead into it. A `Program` is well formed by its type.
#![tactic(auto)]

pub mod expression;
pub mod object;
pub mod program;
pub mod statement;

pub use expression::{Access, OExpr, ONode, Step};
pub use object::{Mark, Root, Where};
pub use program::{Copy, KernelInfo, Program};
pub use statement::{OStmt, OStmtNode, Section};
