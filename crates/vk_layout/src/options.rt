//! How a unit is laid out.

/// Where the arguments of a kernel stand that are no pointers: in a storage buffer, or in push constants.
#[derive(Clone, Copy, PartialEq, Eq, Debug)]
pub enum Pod {
    Storage,
    Push,
}

/// The options of a compilation.
#[derive(Clone, Copy, PartialEq, Eq, Debug)]
pub struct Options {
    pub pod: Pod,
}
