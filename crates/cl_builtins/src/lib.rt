//! The tool wall: the names of the built-in functions, which types of arguments each takes, and what it
//! answers (OpenCL C 1.2, 6.12); and what those on integers make of numbers.
#![tactic(auto)]

pub mod call;
pub mod component;
pub mod form;
pub mod kind;
pub mod name;

pub use call::{FindStop, Found, find};
pub use component::value;
pub use form::Form;
pub use kind::{Gentype, Kind};
pub use name::Rule;
