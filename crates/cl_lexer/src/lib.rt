//! The doorway of the compiler: the text of a unit read into tokens, exactly, or refused at its first
//! offence.
#![tactic(auto)]

mod byte;
mod character;
mod front;
mod joined;
mod mark;
mod number;
pub mod read;
pub mod token;

pub use read::{MAX_TEXT, lex, one_verdict};
pub use token::{Token, TokenKind, Tokens};
