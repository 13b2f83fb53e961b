//! What a token may be to the grammar.

use cl_types::{BinOp, Space};

/// A terminal of the grammar. Words that stand in the same places and differ in what they mean are one
/// terminal with that meaning.
#[derive(Clone, Copy, PartialEq, Eq, Debug)]
pub enum Terminal {
    /// The end of the tokens.
    End,
    /// A name that no typedef declared.
    Name,
    /// A name that a typedef declared, and whether it names a vector type.
    TypeName { vector: bool },
    /// A number and its type: 0 for int, 1 for uint, 2 for long, 3 for ulong; also a character literal, which is
    /// an int with the 32-bit pattern of its value.
    Number { value: u64, ty: u8 },
    Typedef,
    Kernel,
    Inline,
    Static,
    Attribute,
    Const,
    Volatile,
    Restrict,
    Space(Space),
    Void,
    Bool,
    Signed,
    Unsigned,
    Char,
    Short,
    Int,
    Long,
    /// `uchar`, `ushort`, `uint` or `ulong`.
    UnsignedInt { bits: u8 },
    Vector { bits: u8, signed: bool, n: u8 },
    /// `size_t`, `ptrdiff_t`, `intptr_t` or `uintptr_t`.
    Sized { signed: bool },
    Struct,
    If,
    Else,
    While,
    Do,
    For,
    Switch,
    Case,
    Default,
    Break,
    Continue,
    Return,
    Sizeof,
    OpenParen,
    CloseParen,
    OpenBracket,
    CloseBracket,
    OpenBrace,
    CloseBrace,
    Comma,
    Semicolon,
    Colon,
    Question,
    Dot,
    Arrow,
    Increment,
    Decrement,
    Tilde,
    Exclamation,
    Ampersand,
    Star,
    Plus,
    Minus,
    /// A binary operator that is none of `& * + -`.
    Infix(BinOp),
    Equals,
    /// An assignment with an operator.
    Compound(BinOp),
    /// A word of the language that this subset leaves out.
    Refused,
    /// A token that stands in no sentence: a name over 65,535 bytes, `#`, or the rest of a message's line.
    Stray,
}
