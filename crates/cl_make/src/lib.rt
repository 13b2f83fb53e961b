//! The sewing machine: the types that a rule asks for, conversions to them, and the typed nodes that a rule makes of
//! typed operands.
#![tactic(auto)]

pub mod asking;
pub mod making;
pub mod typed;

pub use asking::{given, of_shape, shaped, wanted};
pub use making::{converted, head_of, made, named, number};
pub use typed::Typed;
