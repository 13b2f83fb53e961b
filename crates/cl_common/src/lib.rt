//! The common room: what the work-items of typed trees and those of object programs share, so that both speak of the
//! same: operators on whole values, bytes, the memory that items share, and what they ask of it. There is no code
//! here, only definitions.
#![tactic(auto)]
