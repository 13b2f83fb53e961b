//! The meaning of modules, whole: what an invocation does at each instruction, with calls, branches,
//! composites, atomics and barriers; what all invocations of a launch do together, in any order; and the one
//! run of them that a schedule gives. Definitions and lemmas alone.
#![tactic(auto)]
