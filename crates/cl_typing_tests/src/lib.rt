//! The proof desk of the pattern room: tests of types and of what typing looks up, alone and over the crates that
//! they test, so that those are proved once.
#![tactic(auto)]

#[cfg(test)]
mod cl_builtins_tests;
#[cfg(test)]
mod cl_builtins_value_tests;
#[cfg(test)]
mod cl_constants_tests;
#[cfg(test)]
mod cl_rules_tests;
#[cfg(test)]
mod cl_scope_tests;
#[cfg(test)]
mod cl_tree_tests;
#[cfg(test)]
mod cl_types_tests;
#[cfg(test)]
mod cl_words_tests;
