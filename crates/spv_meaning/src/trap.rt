//! Why an invocation traps.

/// The kinds of traps.
#[derive(Clone, Copy, PartialEq, Eq, Debug)]
pub enum TrapKind {
    /// An index that isn't below its length.
    Range,
    /// A zero divisor, or the least number divided by -1.
    Divide,
    /// A shift by the width or more.
    Shift,
    /// A group whose invocations don't meet at one barrier.
    Barrier,
    /// A place where control doesn't come in a valid module.
    Unreachable,
}
