//! The library: it reads an expression, or a type in one, from tokens into its syntax tree, or says at which
//! token none goes on.
#![tactic(auto)]

mod expression;
mod grouping;
mod parse;
mod parts;
mod reader;
mod simple;

pub use cl_grammar::{ExprStop, TypeName, TypeNames};
pub use expression::{SpecRead, Taken};
pub use parse::parse_expr;
pub use reader::Reader;
