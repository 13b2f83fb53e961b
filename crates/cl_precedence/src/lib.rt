//! The room of binding: how a row of operands, with binary operators between them, groups to one
//! tree. The conditions of the preprocessor and the expressions of the language share it.
#![tactic(auto)]

pub mod grouping;

pub use grouping::{Operand, grouped, one_grouping};
