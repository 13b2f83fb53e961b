//! The folding bench: what constant expressions of typed trees come to (C99, 6.6), for lengths, labels,
//! components, flags and the bytes of constants. No tree is refused; want of memory is the one refusal.
#![tactic(auto)]

pub mod component;
pub mod conversion;
pub mod folding;
mod list;
mod operand;
pub mod value;

pub use conversion::{number_to, shape};
pub use folding::constancy;
pub use value::{divides, number, number_in, positive, positive_in};
