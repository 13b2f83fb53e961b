//! The seating plan: where a unit's arguments, constants and variables stand in its module (OpenCL C 1.2, 6.5; Vulkan, 15.6).
//! There is no code here, only definitions.
#![tactic(auto)]

pub mod options;

pub use options::{Options, Pod};
