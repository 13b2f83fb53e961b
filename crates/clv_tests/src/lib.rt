//! The proof desk at the front door: tests of the whole house and of its doors to the outside, alone and over the
//! crates that they test, so that those are proved once.
#![tactic(auto)]

#[cfg(test)]
mod clv_engine_emit_tests;
#[cfg(test)]
mod clv_engine_front_tests;
#[cfg(test)]
mod clv_engine_tests;
#[cfg(test)]
mod clv_engine_typing_tests;
#[cfg(test)]
mod clv_io_tests;
