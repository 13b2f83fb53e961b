//! What a rule makes of its operands.

use cl_builtins::Gentype;
use cl_tree::{Facts, Shape};
use cl_types::{BinOp, Builtin, Space, TypeId, UnOp};
use clv_place::List;

/// What a rule has to know of an operand, with what its type is. A place of `const` is readonly. The name of an
/// array whose length isn't known yet is incomplete.
#[derive(Clone, Copy, PartialEq, Eq, Debug)]
pub struct Operand {
    pub facts: Facts,
    pub shape: Shape,
    pub readonly: bool,
    pub complete: bool,
}

/// A type that a value has to have, with what it is.
#[derive(Clone, Copy, PartialEq, Eq, Debug)]
pub struct Target {
    pub ty: TypeId,
    pub shape: Shape,
}

/// The type that is wanted of an operand, or given by a node: whichever it has, a type of the table, or one of
/// this shape.
#[derive(Clone, Copy, PartialEq, Eq, Debug)]
pub enum Want {
    Own,
    Type(TypeId),
    Of(Shape),
}

/// A node without its operands.
#[derive(Drop)]
pub enum Head {
    Param(u32),
    Var(u32),
    Constant(u32),
    Convert,
    Unary(UnOp),
    Binary(BinOp),
    Assign(Option<BinOp>),
    Cond,
    Vector,
    Call(u32),
    Builtin(Builtin),
    Index,
    Member(u32),
    Components(List<u8>),
    Comma,
    Fill,
}

/// A node that keeps every rule: the types wanted of its operands, what it is, the type that it gives, and where
/// it lies if it is a place.
#[derive(Drop)]
pub struct Made {
    pub wants: List<Want>,
    pub head: Head,
    pub gives: Want,
    pub lies: Option<Space>,
    pub component: bool,
    pub readonly: bool,
}

/// The least code of a rule that a node breaks, or what it makes.
#[derive(Drop)]
pub enum Judged {
    Broken(u16),
    Makes(Made),
}

/// The words of a type: what they name, with what that is, and what they say of it. `clash` holds where they name
/// two address spaces, and `sized` where the type is `size_t` or one of its like.
#[derive(Clone, Copy, PartialEq, Eq, Debug)]
pub struct Qualified {
    pub ty: TypeId,
    pub shape: Shape,
    pub readonly: bool,
    pub space: Option<Space>,
    pub clash: bool,
    pub sized: bool,
}

/// The type of two operands together: of scalars by the usual conversions, of two vectors their own, of a vector and
/// a scalar the vector's, which the scalar must not outrank.
#[derive(Clone, Copy, PartialEq, Eq, Debug)]
pub enum Meeting {
    Meet(Gentype),
    Unlike,
    Outranked,
}

/// The type that a shift wants of its amount: of a scalar's the promoted one; of a vector's its own where it is a
/// vector of as many components, or that of the vector where it is a number that doesn't outrank it.
#[derive(Clone, Copy, PartialEq, Eq, Debug)]
pub enum Amount {
    Wanted(Want),
    NoAmount,
    TooWide,
}

/// A compound assignment before its place is judged: which rules its operator breaks, whether what that gives
/// doesn't convert back, and the type wanted of the value.
#[derive(Clone, Copy, PartialEq, Eq, Debug)]
pub struct Changing {
    pub no_type: bool,
    pub to_arrays: bool,
    pub outranked: bool,
    pub no_way_back: bool,
    pub wanted: Want,
}
