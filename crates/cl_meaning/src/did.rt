//! What a task came to.

use cl_tree::Event;

/// What is done with an answer, or with an unspecified value: nothing; it is one scalar more of the newest value; it is
/// a value. It is cut to so many bits.
#[derive(Clone, Copy)]
pub enum Then {
    Nothing,
    Append { bits: u8 },
    Give { bits: u8 },
}

/// What a task came to: it is done; it needs an unspecified value of so many bits; it asks; or it is undefined.
#[derive(Drop)]
pub enum Did {
    Went,
    Picks { bits: u8, then: Then },
    Asks { event: Event, then: Then },
    Undefined,
}
