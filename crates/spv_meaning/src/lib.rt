//! The meaning of modules: what one invocation does, one instruction after another; what all invocations
//! of a launch do together, in any order; and the one run of them that a schedule gives. Definitions and
//! lemmas, and the kinds of traps.
#![tactic(auto)]

pub mod trap;

pub use trap::TrapKind;
