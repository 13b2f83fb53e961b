//! The reading lamp: what a typed tree means. A work-item is a machine that makes one task after another and asks
//! for what lies in shared memory (OpenCL C 1.2, 6).
#![tactic(auto)]

mod access;
mod act;
mod applied;
mod calling;
pub mod code;
mod control;
mod did;
mod ending;
mod entry;
mod expression;
mod filling;
mod grid;
mod item;
pub mod laws;
mod layouts;
mod memory;
mod numbering;
mod numbers;
mod operate;
mod operation;
mod pointer;
pub mod run;
mod stack;
mod start;
mod statement;
mod task;
mod wide;

pub use run::{ItemRun, Reference};
