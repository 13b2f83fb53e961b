//! What is judged, and the judgement.

/// A term of a condition.
#[derive(Clone, Copy, PartialEq, Eq, Debug)]
pub enum Term {
    /// A number: its 64 bits, and whether it is unsigned.
    Value { bits: u64, unsigned: bool },
    /// A mark, by its number from 0 in the order of the marks' bytes.
    Mark(u8),
    /// What stands in no condition.
    Stray,
}

/// What terms come to as a condition.
#[derive(Clone, Copy, PartialEq, Eq, Debug)]
pub enum Judged {
    /// A number: its 64 bits, and whether it is unsigned.
    Value { bits: u64, unsigned: bool },
    /// They are no condition.
    Malformed,
    /// An operand that is evaluated divides by zero.
    DividesByZero,
}
