//! The rows that the reflection lines of a module say.

use clv_place::{List, Text};

/// What a module tells those who launch it.
#[derive(Drop)]
pub struct Reflection {
    /// The kernels, in the order of their lines.
    pub kernels: List<KernelRow>,
    /// The SpecIds of the constants that make a group's size along x, y and z.
    pub sizes: Option<[u32; 3]>,
    /// The SpecId of the constant that is the work dimension.
    pub dim: Option<u32>,
    /// The constant data.
    pub constants: Option<ConstantRow>,
}

/// A kernel: the id of its function, its name, its arguments in order, and the size of a group that it
/// requires.
#[derive(Drop)]
pub struct KernelRow {
    pub function: u32,
    pub name: Text,
    pub args: List<ArgRow>,
    pub required: Option<[u32; 3]>,
}

/// An argument and what it is in the module.
#[derive(Drop)]
pub struct ArgRow {
    pub name: Text,
    pub kind: ArgKindRow,
}

/// A buffer variable; a range of bytes of a block, in a buffer or in push constants; or an array in
/// workgroup memory, by the SpecId of its length and the bytes of an element.
#[derive(Clone, Copy, PartialEq, Eq, Debug)]
pub enum ArgKindRow {
    Buffer {
        set: u32,
        binding: u32,
    },
    PlainStorage {
        set: u32,
        binding: u32,
        offset: u32,
        size: u32,
    },
    PlainPush {
        offset: u32,
        size: u32,
    },
    Local {
        spec: u32,
        elem: u32,
    },
}

/// The buffer variable of the constant data, and its bytes.
#[derive(Drop)]
pub struct ConstantRow {
    pub set: u32,
    pub binding: u32,
    pub bytes: Text,
}
