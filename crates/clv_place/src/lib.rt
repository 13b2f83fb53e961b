//! The ground floor: what every other room of the compiler hands round. Places in a text and the
//! offences that stand at them, want of memory, and texts and lists that contracts see as lists.
#![tactic(auto)]

pub mod list;
pub mod place;
pub mod stop;
pub mod text;

pub use list::List;
pub use place::{Place, place_at};
pub use stop::{NoMemory, Offence, Stop};
pub use text::Text;

#[cfg(test)]
mod tests;
