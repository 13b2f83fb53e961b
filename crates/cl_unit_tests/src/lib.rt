//! The fitting table of the pattern room: tests of what makes typed trees, alone and over the crates that they test, so
//! that those are proved once.
#![tactic(auto)]

#[cfg(test)]
mod cl_make_tests;
#[cfg(test)]
mod cl_type_expr_tests;
#[cfg(test)]
mod cl_typing_kernels_tests;
#[cfg(test)]
mod cl_typing_tests;
#[cfg(test)]
mod common;
