//! The proof desk of the front rooms: tests of how texts become tokens, alone and over the crates that they test,
//! so that those are proved once.
#![tactic(auto)]

#[cfg(test)]
mod cl_condition_tests;
#[cfg(test)]
mod cl_lexer_tests;
#[cfg(test)]
mod cl_macro_tests;
#[cfg(test)]
mod cl_pre_tests;
#[cfg(test)]
mod cl_precedence_tests;
