//! The binding room: a launch is bound to a module, through the module's reflection rows and its variables'
//! types and decorations alone.
#![tactic(auto)]

pub mod binding;
mod elements;
pub mod parameters;
mod rules;
pub mod start;

pub use binding::{bind, kept_or_broken};
pub use start::{BindStop, Bound, Spec, Start};
