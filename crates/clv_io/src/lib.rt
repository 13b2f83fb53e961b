//! The doors to the outside: files by name and a sink for text, as traits whose meaning contracts can
//! name, with fakes in memory that keep to what they tell and thin adapters over the real ones.
#![tactic(auto)]

pub mod files;
pub mod host;
mod shelf;
pub mod sink;
pub mod steady;

pub use files::{Files, LoadFault, StoreFault};
pub use host::{HostFiles, HostSink};
pub use sink::{Sink, SinkFault};
pub use steady::{SteadyFiles, SteadySink};
