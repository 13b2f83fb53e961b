//! The tracing paper: syntax trees as what they say, without where their lists lie in memory, and the law that tokens
//! have one. Theory alone.
#![tactic(auto)]

mod law;

pub use law::one_tree;
