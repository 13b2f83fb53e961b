//! The workshop: reads initialisers, declarations in blocks, and statements. It descends once from left to right,
//! and each choice is made by the next token.
#![tactic(auto)]

mod clause;
mod declaration;
mod initialiser;
mod label;
mod list;
mod look;
mod simple;
mod statement;

pub use initialiser::init_declors;
pub use statement::block;
