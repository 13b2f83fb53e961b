//! The two drawers of the pattern room that hold the same patterns in another order: the verdict on an expression doesn't
//! depend on which numbers types have in their table. Theory alone.
#![tactic(auto)]

mod law;

pub use law::one_verdict;
