//! What a terminal may stand for at a place of the grammar.

ghost use Rattle.std.specs.Prelude.{◌≡◌};
ghost use Rattle.cl_grammar.specs.Symbols.{is_type_word};
ghost use Rattle.cl_grammar.specs.Terminals as words;

use crate::terminal::Terminal;
use cl_ast::expression::Qual;
use cl_types::{BinOp, UnOp};

impl Terminal {
    /// The qualifier of a type that this is, if any (OpenCL C 1.2, 6.5 and 6.7).
    pub fn qualifier(self) -> Option<Qual>
        ensures { result ≡ words.qualifier_of self }
    {
        match self {
            Terminal::Const => Some(Qual::Const),
            Terminal::Volatile => Some(Qual::Volatile),
            Terminal::Space(space) => Some(Qual::Space(space)),
            _ => None,
        }
    }

    /// The qualifier of a pointer that this is behind its `*`, if any.
    pub fn pointer_qualifier(self) -> Option<Qual>
        ensures { result ≡ words.pointer_qualifier_of self }
    {
        match self {
            Terminal::Const => Some(Qual::Const),
            Terminal::Volatile => Some(Qual::Volatile),
            Terminal::Restrict => Some(Qual::Restrict),
            _ => None,
        }
    }

    /// Whether the type that this word is by itself is a vector, and none where it is no such word.
    pub fn whole_type(self) -> Option<bool>
        ensures { result ≡ words.whole_type self }
    {
        match self {
            Terminal::Void | Terminal::Bool => Some(false),
            Terminal::UnsignedInt { bits: _ } | Terminal::Sized { signed: _ } => Some(false),
            Terminal::Vector {
                bits: _,
                signed: _,
                n: _,
            } => Some(true),
            Terminal::TypeName { vector } => Some(vector),
            _ => None,
        }
    }

    /// Whether this is `signed`, and none where it is neither that nor `unsigned`.
    pub fn sign(self) -> Option<bool>
        ensures { result ≡ words.sign_of self }
    {
        match self {
            Terminal::Signed => Some(true),
            Terminal::Unsigned => Some(false),
            _ => None,
        }
    }

    /// The bits of the integer type that this word names, if any.
    pub fn width(self) -> Option<u8>
        ensures { result ≡ words.width_of self }
    {
        match self {
            Terminal::Char => Some(8),
            Terminal::Short => Some(16),
            Terminal::Int => Some(32),
            Terminal::Long => Some(64),
            _ => None,
        }
    }

    /// Whether `int` may stand behind this word.
    pub fn takes_int(self) -> bool
        ensures { result ≡ words.takes_int self }
    {
        match self {
            Terminal::Short | Terminal::Long => true,
            _ => false,
        }
    }

    /// The operator that this is before a cast, if any.
    pub fn prefix(self) -> Option<UnOp>
        ensures { result ≡ words.prefix_of self }
    {
        match self {
            Terminal::Plus => Some(UnOp::Plus),
            Terminal::Minus => Some(UnOp::Minus),
            Terminal::Tilde => Some(UnOp::Not),
            Terminal::Exclamation => Some(UnOp::LogicalNot),
            Terminal::Star => Some(UnOp::Deref),
            Terminal::Ampersand => Some(UnOp::Address),
            _ => None,
        }
    }

    /// The operator that `++` or `--` is before its operand.
    pub fn increment_before(self) -> Option<UnOp>
        ensures { result ≡ words.increment_before self }
    {
        match self {
            Terminal::Increment => Some(UnOp::PreInc),
            Terminal::Decrement => Some(UnOp::PreDec),
            _ => None,
        }
    }

    /// The operator that `++` or `--` is behind its operand.
    pub fn increment_behind(self) -> Option<UnOp>
        ensures { result ≡ words.increment_behind self }
    {
        match self {
            Terminal::Increment => Some(UnOp::PostInc),
            Terminal::Decrement => Some(UnOp::PostDec),
            _ => None,
        }
    }

    /// Whether this is the `->` before a member, and none where it is neither that nor `.`.
    pub fn arrow(self) -> Option<bool>
        ensures { result ≡ words.arrow_of self }
    {
        match self {
            Terminal::Dot => Some(false),
            Terminal::Arrow => Some(true),
            _ => None,
        }
    }

    /// The operator between two operands that this is, if any.
    pub fn binary(self) -> Option<BinOp>
        ensures { result ≡ words.binary_of self }
    {
        match self {
            Terminal::Star => Some(BinOp::Mul),
            Terminal::Plus => Some(BinOp::Add),
            Terminal::Minus => Some(BinOp::Sub),
            Terminal::Ampersand => Some(BinOp::And),
            Terminal::Infix(op) => Some(op),
            _ => None,
        }
    }

    /// The operator of the assignment that this is, or none for `=`; none at all where it is no assignment.
    pub fn assignment(self) -> Option<Option<BinOp>>
        ensures { result ≡ words.assignment_of self }
    {
        match self {
            Terminal::Equals => Some(None),
            Terminal::Compound(op) => Some(Some(op)),
            _ => None,
        }
    }

    /// Whether a type may begin with this.
    pub fn begins_type(self) -> bool
        ensures { result ≡ is_type_word self }
    {
        match self {
            Terminal::Const | Terminal::Volatile | Terminal::Space(_) => true,
            Terminal::Void | Terminal::Bool | Terminal::Struct => true,
            Terminal::Signed | Terminal::Unsigned => true,
            Terminal::Char | Terminal::Short | Terminal::Int | Terminal::Long => true,
            Terminal::UnsignedInt { bits: _ } | Terminal::Sized { signed: _ } => true,
            Terminal::Vector {
                bits: _,
                signed: _,
                n: _,
            } => true,
            Terminal::TypeName { vector: _ } => true,
            _ => false,
        }
    }
}
