//! What comes of steps and of runs.

use spv_meaning::TrapKind;

/// A trap: its kind, the id of the function, the index of the instruction's first word in the module, and
/// the item that made the step.
#[derive(Clone, Copy, PartialEq, Eq, Debug)]
pub struct Trap {
    pub kind: TrapKind,
    pub function: u32,
    pub word: u32,
    pub item: u32,
}

/// What came of a step: the invocation goes on, has ended, or has trapped.
#[derive(Clone, Copy, PartialEq, Eq, Debug)]
pub enum Stepped {
    Went,
    Ended,
    Trapped(Trap),
}

/// How a run ends: all invocations have ended, one has trapped, or the steps of the budget are made. A
/// step that traps is counted.
#[derive(Clone, Copy, PartialEq, Eq, Debug)]
pub enum Ending {
    Done { steps: u64 },
    Trap { trap: Trap, steps: u64 },
    Spent,
}
