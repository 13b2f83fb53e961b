//! What comes of running a module on a launch.

use clv_place::{List, Text};
use run_machine::Trap;

/// What comes of running a module on a launch.
#[derive(Drop)]
pub enum Outcome {
    /// All invocations have ended, after so many steps together: the bytes of the launch's buffers by
    /// their numbers, and which of them an argument may write.
    Done {
        steps: u64,
        buffers: List<Text>,
        stored: List<bool>,
    },
    /// An invocation has trapped.
    Trapped(Trap),
    /// The steps of the budget are made.
    Spent,
    /// The launch breaks a rule, at an argument where the rule names one.
    Misfit {
        number: u8,
        arg: Option<u32>,
    },
    /// The launch takes too many cells.
    TooMuch,
}
