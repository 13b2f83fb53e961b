//! The memory room: values of the types of a module, with all their parts, and how they stand in
//! bytes.
#![tactic(auto)]

pub mod reading;
mod scalar;
pub mod value;

pub use reading::view;
pub use value::Value;
