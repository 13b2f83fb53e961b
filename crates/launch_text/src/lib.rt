//! The reading room: launch texts, which name a kernel, the sizes of its grid and what its arguments are
//! given, read into launches; and what one work-item can see of a launch.
#![tactic(auto)]

mod draft;
pub mod launch;
mod line;
mod number;
pub mod read;
pub mod rules;
mod said;

pub use launch::{ArgKind, ArgLine, ArgSize, Launch, LaunchSizes, LaunchStop, Schedule};
pub use read::read_launch;
