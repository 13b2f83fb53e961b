//! The frame of the house: the syntax trees that the parser builds and the typing rules read. They are
//! plain data.
#![tactic(auto)]

pub mod declaration;
pub mod expression;
pub mod statement;
