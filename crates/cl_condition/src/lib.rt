//! The judge's bench of the preprocessor: whether the terms of an `#if` line are a condition, and
//! what it is worth, over numbers of 64 bits (C99 sections 6.10.1 and 6.5).
#![tactic(auto)]

pub mod judging;
pub mod operator;
mod outcome;
mod read;
pub mod term;

pub use judging::{judge, one_judgement};
pub use operator::{BinaryOperator, UnaryOperator};
pub use term::{Judged, Term};
