//! The string behind the beads: which object each pointer of a function points into, and by which members and indices.
//! There is no code here, only definitions.
#![tactic(auto)]
