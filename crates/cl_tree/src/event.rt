//! What a work-item asks of what lies outside it, and where its run stands.

use cl_types::Builtin;
use clv_place::List;

/// An expression node of a unit: its function, and its number there. The nodes of a function have numbers from 0 in
/// text order, operands before what they belong to.
#[derive(Clone, Copy, PartialEq, Eq, Debug)]
pub struct NodeId {
    pub function: u32,
    pub node: u32,
}

/// An object in memory that work-items share (OpenCL C 1.2, 6.5): a buffer by its number in the launch, a constant by
/// its number in the unit, what a pointer into local memory points to by the number of the kernel's parameter, and a
/// variable in local memory by its number among those of the kernel.
#[derive(Clone, Copy, PartialEq, Eq, Debug)]
pub enum Shared {
    Buffer(u32),
    Constant(u32),
    LocalArgument(u32),
    LocalVariable(u32),
}

/// One scalar of shared memory: so many bits from a byte of an object on.
#[derive(Clone, Copy, PartialEq, Eq, Debug)]
pub struct Spot {
    pub object: Shared,
    pub offset: u32,
    pub bits: u8,
}

/// What a work-item asks.
#[derive(Drop)]
pub enum Event {
    Read {
        at: Spot,
    },
    Write {
        at: Spot,
        value: u64,
    },
    /// An atomic operation with the patterns of its arguments behind the pointer. `signed` says that `atomic_min`
    /// or `atomic_max` compares ints (OpenCL C 1.2, 6.12.11).
    Atomic {
        op: Builtin,
        signed: bool,
        at: Spot,
        args: List<u64>,
    },
    /// A barrier by the nodes of the calls that are pending there, the outermost first, and last its own node
    /// (OpenCL C 1.2, 6.12.8).
    Barrier {
        chain: List<NodeId>,
    },
    /// An unspecified value of so many bits.
    Free {
        bits: u8,
    },
}

/// An answer to what was asked. It is cut to the width asked, and does not matter behind a write or a barrier.
#[derive(Clone, Copy, PartialEq, Eq, Debug)]
pub struct Answer {
    pub value: u64,
}

/// Where a run stands: at its end, at a question that has no answer yet, at what is undefined, or at a step that it
/// was not to make.
#[derive(Drop)]
pub enum Outcome {
    Done,
    Asks(Event),
    Undefined,
    Running,
}
