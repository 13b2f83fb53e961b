//! The linen cupboard: declared variables with their initialisers (C99, 6.7 and 6.7.8; OpenCL C 1.2, 6.5), and the
//! bytes of constants. Each answer holds in every table that has the types of the one that it leaves.
#![tactic(auto)]

pub mod declaring;
mod filling;
pub mod image;
mod initial;
mod listing;
pub mod tally;
mod valued;

pub use declaring::{VariableRead, Where, variable};
pub use image::bytes;
