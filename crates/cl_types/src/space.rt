//! Address spaces (OpenCL C 1.2, 6.5).

/// Where an object lies.
#[derive(Clone, Copy, PartialEq, Eq, Debug)]
pub enum Space {
    Global,
    Constant,
    Local,
    Private,
}
