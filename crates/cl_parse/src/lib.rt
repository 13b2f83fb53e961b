//! The study: it reads the tokens of a text into the syntax tree of a unit, or tells their first offence. It
//! descends once from left to right, and each choice is made by the next token or two.
#![tactic(auto)]

mod file_scope;
mod params;
mod unit;
mod verdict;
mod word;

pub use verdict::{one_offence, parse};
