//! The sorting room behind the doorway: directives are obeyed here and macros replaced, so that what goes
//! on to the parser is tokens alone, or the first offence.
#![tactic(auto)]

mod condition;
mod definition;
mod directive;
pub mod expansion;
mod front;
mod group;
mod predefined;
mod unended;
mod word;

pub use definition::same_kinds;
pub use expansion::{MAX_RESULT, expand, one_verdict};
