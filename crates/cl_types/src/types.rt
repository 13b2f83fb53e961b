//! Types, each built of types of a table.

use crate::space::Space;
use clv_place::{List, Text};

/// The number of a type in its table, from 0.
#[derive(Clone, Copy, PartialEq, Eq, Hash, Debug)]
pub struct TypeId(pub u32);

/// A member of a struct: its name and its type (C99, 6.7.2.1).
#[derive(Drop)]
pub struct Member {
    pub name: Text,
    pub ty: TypeId,
}

/// A type (OpenCL C 1.2, 6.1). Types are equal exactly where all in them is: so two structs of one name
/// and equal members are one type, wherever they were declared.
#[derive(Drop)]
pub enum ClType {
    Void,
    Bool,
    /// An integer of 8, 16, 32 or 64 bits.
    Int {
        bits: u8,
        signed: bool,
    },
    /// A vector of 2, 3, 4, 8 or 16 components of an integer type.
    Vector {
        elem: TypeId,
        n: u8,
    },
    /// An array of at least one element.
    Array {
        elem: TypeId,
        len: u32,
    },
    /// A struct of at least one member. Its name is empty where it has none.
    Struct {
        name: Text,
        members: List<Member>,
    },
    /// A pointer into an address space. It is read-only where it points to `const`.
    Pointer {
        space: Space,
        to: TypeId,
        readonly: bool,
        restricted: bool,
    },
}
