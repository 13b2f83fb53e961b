//! Macros.

use cl_lexer::Token;
use clv_place::{List, Text};

/// A macro: its parameters, where it takes arguments, and the tokens that replace it.
#[derive(Drop)]
pub struct Macro {
    pub params: Option<List<Text>>,
    pub body: List<Token>,
}

/// What a directive says of a name: which macro it names from there on, or that it names none.
#[derive(Drop)]
pub struct Entry {
    pub name: Text,
    pub means: Option<Macro>,
}
