//! The common ground of worlds: many work-items over one memory, in any order, and what it is for the
//! items of one program to do together what those of another do. There is no code here, only
//! definitions and lemmas on them.
#![tactic(auto)]
