//! The room where modules become bytes and bytes become modules: the words of a module both ways
//! (SPIR-V 2.2.1 and 2.3).
#![tactic(auto)]

mod kind;
pub mod reading;
pub mod round_trip;
mod shape;
pub mod stop;
mod string;
mod words;
pub mod writing;

pub use reading::read;
pub use round_trip::{read_is_written, spelled_once, spelled_or_broken, written_is_read};
pub use stop::{ReadStop, rule};
pub use writing::write;
