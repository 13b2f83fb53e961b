//! The charter: what the compiler promises of the module that it makes for a text. There is no code here, only definitions.
#![tactic(auto)]
