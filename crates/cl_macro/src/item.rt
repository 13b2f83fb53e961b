//! Tokens with the names that are hidden from them, and what stands first in a list of them.

use crate::names::Names;
use crate::row::Row;
use crate::stack::Stack;
use cl_lexer::Token;
use clv_place::{Offence, Place};

/// A token, the names that are hidden from it, and whether it stands in the text itself, and not in the
/// replacement of a macro.
#[derive(Drop)]
pub struct Item {
    pub token: Token,
    pub hidden: Names,
    pub raw: bool,
}

/// The arguments of a call, the names that are hidden from its `)`, and what follows.
#[derive(Drop)]
pub struct Arguments {
    pub list: Row<Row<Item>>,
    pub hidden: Names,
    pub beyond: Stack<Item>,
}

/// A call: the index of the macro's entry in the table, the place of its name, the names that are hidden
/// from its replacement, and what follows.
#[derive(Drop)]
pub struct Call {
    pub at: usize,
    pub place: Place,
    pub hidden: Names,
    pub beyond: Stack<Item>,
}

/// What stands first in a list of tokens.
#[derive(Drop)]
pub enum First {
    /// The list is empty.
    End,
    /// A token that is not replaced, and the rest.
    Kept(Item, Stack<Item>),
    /// A macro without parameters: its replacement, and the rest.
    Becomes(Stack<Item>),
    Bad(Offence),
    /// A macro with parameters, and its arguments.
    Calls(Call, Row<Row<Item>>),
}

/// How many more tokens may come out.
#[derive(Clone, Copy)]
pub enum Room {
    Endless,
    /// At most so many, and the offence of one more.
    Tokens(usize, Offence),
}
