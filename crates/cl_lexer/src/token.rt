//! Tokens.

use clv_place::{List, Place, Text};

/// What a token is.
#[derive(Drop)]
pub enum TokenKind {
    /// Letters, digits and `_`, of which the first is no digit.
    Name(Text),
    /// A number and its type: 0 for int, 1 for uint, 2 for long, 3 for ulong.
    Number { value: u64, ty: u8 },
    /// A character literal, by the value of a char.
    Char(i32),
    /// A mark, by its number from 0 in the order of the marks' bytes.
    Mark(u8),
    /// All that stands behind the name of `#error` or `#pragma` on its line.
    Rest(Text),
}

/// A token, and where its first byte stands.
#[derive(Drop)]
pub struct Token {
    pub kind: TokenKind,
    pub place: Place,
    /// Whether it is the first token of its line.
    pub first: bool,
    /// Whether a separator or a comment stands before it.
    pub spaced: bool,
}

/// The tokens of a text, and the place of its end.
#[derive(Drop)]
pub struct Tokens {
    pub list: List<Token>,
    pub end: Place,
}
