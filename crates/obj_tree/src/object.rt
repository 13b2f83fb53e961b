//! Objects and the shapes of what leads into them.

use clv_place::List;

/// An object that a copy of a function can reach: what an argument of its kernel points to, by the number of the
/// parameter; a constant of the unit; a variable of its kernel in local memory; and an object in private memory.
/// Those in private memory are numbered through: first the ones that a caller passes, then the parameters that are
/// no pointers, then the indices of its pointer parameters, then its variables.
#[derive(Clone, Copy, PartialEq, Eq, Debug)]
pub enum Root {
    Argument(u32),
    Constant(u32),
    Local(u32),
    Private(u32),
}

/// One step of a shape. A single step is an index into what is no array: it counts as an array of one
/// (C99, 6.5.6).
#[derive(Clone, Copy, PartialEq, Eq, Debug)]
pub enum Mark {
    Member(u32),
    Index,
    Single,
}

/// Where a pointer points, but for its indices: an object, and the steps that lead into it.
#[derive(Drop)]
pub struct Where {
    pub root: Root,
    pub shape: List<Mark>,
}
