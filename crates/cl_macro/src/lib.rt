//! The workshop of the preprocessor: macros are replaced here, in one list of tokens, where each token
//! carries the names that are hidden from it.
#![tactic(auto)]

pub mod expansion;
pub mod first;
pub mod item;
pub mod macros;
pub mod names;
pub mod replace;
pub mod row;
pub mod stack;
pub mod table;
