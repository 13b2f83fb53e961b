//! The room of validity: the rules of valid modules (SPIR-V 2.16; Vulkan, A.1), as far as the opcodes
//! that the compiler knows can break them, and the type of modules that break none. What reads,
//! launches or prints a valid module takes that type.
#![tactic(auto)]

pub mod checked;
pub mod laws;

pub use checked::Checked;
