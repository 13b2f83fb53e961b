//! What operators do to what was evaluated (C99, 6.5; OpenCL C 1.2, 6.2 to 6.4 and 6.12).

use crate::entry::Entry;
use crate::wide::{WideShape, WideType};
use cl_types::{BinOp, Builtin, TypeId, UnOp};
use clv_place::List;

/// An operation on the newest entries of a stack, the newest written last.
#[derive(Drop)]
pub enum Operation {
    /// Put an entry there; take away the newest, or the one beneath it; exchange these two; put a copy of the newest
    /// beneath these two.
    Push(Entry),
    Drop,
    DropSecond,
    Swap,
    Keep,
    /// A value that is used may not be missing.
    Sure,
    /// A pointer: the place where it points; a place: a pointer there, a part of the `whole` bytes there, components
    /// of a vector there.
    Follow,
    Address,
    Part {
        whole: u32,
        far: u32,
        bytes: u32,
    },
    Select(List<u8>),
    /// A pointer and a number of elements of `size` bytes: `+` or `-`; two pointers: a comparison or `-`.
    Offset {
        op: BinOp,
        index: WideShape,
        size: u32,
    },
    Compare {
        op: BinOp,
        size: u32,
    },
    /// Of vloadN and vstoreN, a number k and a pointer: the place of n elements from the (k * n)th on; this product is
    /// a size_t and wraps.
    Elements {
        n: u8,
        size: u32,
    },
    /// A value: converted; by `+`, `-`, `~` or `!`; so many scalars from one on; the components in this order.
    Convert {
        from: WideShape,
        to: WideShape,
    },
    Unary {
        op: UnOp,
        operand: WideType,
    },
    Slice {
        from: usize,
        count: usize,
    },
    Components(List<u8>),
    /// An array's value, of `len` elements of so many scalars, and an index.
    Element {
        index: WideShape,
        count: usize,
        len: u32,
    },
    /// So many values: a vector literal; an initialiser list; the arguments of a built-in function that depends on
    /// these alone, the first of which has the components `from`, and the result `to`.
    Vector {
        parts: usize,
        count: usize,
    },
    Fill {
        types: List<TypeId>,
        ty: TypeId,
    },
    Apply {
        function: Builtin,
        args: usize,
        from: WideType,
        to: WideType,
    },
}
