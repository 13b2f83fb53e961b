//! The fitting room: the typing rules of expressions and of the types in them (C99, 6.5; OpenCL C 1.2, 6.3). Names
//! are looked up in the declarations that enclose them, and each answer holds in every table that has the types of
//! the one that it leaves.
#![tactic(auto)]

mod built_in;
pub mod declaring;
pub mod expression;
mod judge;
mod length;
mod members;
mod node;
mod special;
mod term;
pub mod typed_tree;
mod word_type;

pub use declaring::declared;
pub use expression::{expr, lengths, words};
pub use typed_tree::type_expr;
