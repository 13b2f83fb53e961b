//! The proof desk of the study: tests of how tokens become trees, alone and over the crates that they test, so
//! that those are proved once.
#![tactic(auto)]

#[cfg(test)]
mod cl_grammar_tests;
#[cfg(test)]
mod cl_parse_expr_tests;
#[cfg(test)]
mod cl_parse_stmt_tests;
#[cfg(test)]
mod cl_parse_tests;
