//! The gatehouse of the hall: a unit that is let in isn't turned away, and one that is turned away is told one reason. Theory
//! alone.
#![tactic(auto)]

mod law;

pub use law::one_verdict;
