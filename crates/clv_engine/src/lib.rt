//! The house itself: from the words of the command line to files and a status; the compiler that the
//! command `compile` is, and the command `run`, which compiles, binds, runs and stores.
#![tactic(auto)]

mod command;
mod compiler;
pub mod emit;
pub mod form;
pub mod front;
mod id;
mod load;
mod marks;
mod outcome;
mod report;
mod run_file;
mod run_module;
mod top;

pub use compiler::compile;
pub use front::one_verdict;
pub use top::clv_top;
