//! The scales of the pattern room: what typing makes of an expression is a typed tree, as theory alone, which the typing
//! of units rests on.
#![tactic(auto)]

mod law;

pub use law::typed_trees;
