//! The common ground of all meanings: what it is to be a machine that makes moves and asks for answers,
//! and what it is for one machine to do what another does. A work-item of the source and an invocation
//! of the module are such machines. There is no code here, only definitions and lemmas on them.
#![tactic(auto)]
