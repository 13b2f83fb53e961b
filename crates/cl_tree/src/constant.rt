//! What constant expressions come to.

use cl_types::TypeId;
use clv_place::{List, Place};

/// What an expression comes to as a constant one (C99, 6.6): it is none; it divides by zero or out of range, at
/// a place; or it has components, whose patterns these are. A bool's is 0 or 1.
#[derive(Drop)]
pub enum Constancy {
    Varies,
    Divides(Place),
    Is(List<u64>),
}

/// What the operands of an operator come to: one of them is no constant expression; else the first of them that
/// divides by zero or out of range does it at a place; else they are of these types, with these components.
#[derive(Drop)]
pub enum Operands {
    Vary,
    Divide(Place),
    Are {
        types: List<TypeId>,
        values: List<List<u64>>,
    },
}
