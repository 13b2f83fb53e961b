//! The pattern cutter: which copies of its functions a unit is made into, and which limits it keeps. There is no code here,
//! only definitions.
#![tactic(auto)]
