//! Values with their parts.

use clv_num::Bits;

/// A value of a type of a module. What is none isn't known: it was never written.
#[derive(Drop)]
pub enum Value {
    /// A number of an integer type.
    Scalar(Option<Bits>),
    /// A truth value. It has no place in bytes.
    Truth(Option<bool>),
    /// The elements of a vector, or the members of a struct, in order.
    Parts(Vec<Value>),
}
