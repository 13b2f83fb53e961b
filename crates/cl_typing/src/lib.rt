//! The hall: the typing rules of units, from declarations to statements (C99, 6.8 and 6.9; OpenCL C 1.2, 6.7).
//! Each answer holds in every table that has the types of the one that it leaves.
#![tactic(auto)]

mod condition;
mod declaring;
mod ends;
mod entering;
mod external;
pub mod function_list;
pub mod head;
pub mod label;
pub mod name_list;
mod param;
pub mod setting;
mod size;
pub mod statement;
mod unit;
pub mod unit_state;
pub mod values;

pub use unit::type_unit;
