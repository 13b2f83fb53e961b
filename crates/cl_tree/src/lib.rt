//! The cutting room: typed trees. Every name is a number of a list, every conversion is a node, and every node
//! has its type. A `Tree` is well typed by its type.
#![tactic(auto)]

pub mod constant;
pub mod event;
pub mod expression;
pub mod shape;
pub mod statement;
pub mod tree;
pub mod unit;

pub use constant::{Constancy, Operands};
pub use event::{Answer, Event, NodeId, Outcome, Shared, Spot};
pub use expression::{Facts, TExpr, TNode};
pub use shape::{Shape, promoted, relation_type, same_space};
pub use statement::{Section, TStmt, TStmtNode};
pub use tree::Tree;
pub use unit::{ConstantVar, Function, Variable};
