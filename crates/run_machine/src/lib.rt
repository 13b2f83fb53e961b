//! The machine's room: it runs a bound module over the buffers of its launch, one step of an invocation
//! at a time, by the turns of a schedule.
#![tactic(auto)]

pub mod begin;
pub mod cells;
pub mod chain;
pub mod ending;
pub mod invocation;
pub mod launch;
pub mod machine;
pub mod memory;
pub mod row;
pub mod run;
pub mod spot;
pub mod step;
pub mod stop;

pub use ending::{Ending, Stepped, Trap};
pub use machine::Machine;
pub use spv_meaning::TrapKind;
pub use stop::NewStop;
