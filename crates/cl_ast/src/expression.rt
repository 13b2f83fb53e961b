//! Expressions, and the types that stand in them. A type may declare a struct whose members have lengths,
//! which are expressions, so these types lead to each other.

use cl_types::{BinOp, Space, UnOp};
use clv_place::{List, Place, Text};

/// An expression, with the place of its operator or of its only token, and its operands in text order.
#[cycle(expression)]
#[derive(Drop)]
pub struct Expr {
    pub place: Place,
    pub node: ExprNode,
    pub args: Vec<Expr>,
}

/// What an expression is.
#[cycle(expression)]
#[derive(Drop)]
pub enum ExprNode {
    Name(Text),
    /// A number and its type: 0 for int, 1 for uint, 2 for long, 3 for ulong. A character is an int with the
    /// 32-bit pattern of its value.
    Number { value: u64, ty: u8 },
    Unary(UnOp),
    Binary(BinOp),
    /// An assignment, with the operator of a compound one.
    Assign(Option<BinOp>),
    /// `?:`
    Cond,
    Cast(TypeTerm),
    /// A vector literal.
    Vector(TypeTerm),
    Call(Text),
    Index,
    /// A member after `.`, or after `->` where `arrow` holds.
    Member { name: Text, arrow: bool },
    SizeofType(TypeTerm),
    /// All operands between commas, in one node at the first comma.
    Comma,
}

/// The name of a type: its words, and the words behind `*` where it is a pointer.
#[cycle(expression)]
#[derive(Drop)]
pub struct TypeTerm {
    pub spec: Spec,
    pub star: Option<List<Qual>>,
}

/// The words of a type: qualifiers in text order, and what they qualify.
#[cycle(expression)]
#[derive(Drop)]
pub struct Spec {
    pub quals: List<Qual>,
    pub base: Base,
}

/// A qualifier.
#[derive(Clone, Copy, PartialEq, Eq, Debug)]
pub enum Qual {
    Const,
    Volatile,
    Restrict,
    Space(Space),
}

/// What a type is without its qualifiers.
#[cycle(expression)]
#[derive(Drop)]
pub enum Base {
    Void,
    Bool,
    Int {
        bits: u8,
        signed: bool,
    },
    /// A vector of `n` components.
    Vector {
        bits: u8,
        signed: bool,
        n: u8,
    },
    /// `size_t`, `ptrdiff_t`, `intptr_t` or `uintptr_t`.
    Sized {
        signed: bool,
    },
    /// A name that a typedef declared.
    Named {
        name: Text,
        place: Place,
    },
    /// A struct, with its members where they are declared here. Its place is its name, or the word `struct`.
    Struct {
        name: Option<Text>,
        place: Place,
        members: Option<Vec<Field>>,
    },
}

/// One declaration of members.
#[cycle(expression)]
#[derive(Drop)]
pub struct Field {
    pub spec: Spec,
    pub names: Vec<Declor>,
}

/// A declared name, with the words behind `*` where it is a pointer, and the lengths of arrays, of which one
/// may be missing.
#[cycle(expression)]
#[derive(Drop)]
pub struct Declor {
    pub star: Option<List<Qual>>,
    pub name: Text,
    pub place: Place,
    pub lengths: Vec<Option<Expr>>,
}
