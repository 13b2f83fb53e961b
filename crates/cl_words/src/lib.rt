//! The labels: the types that words and declared names name, and which of them a declaration may have.
#![tactic(auto)]

pub mod naming;
pub mod word;

pub use naming::{Length, Sketch, has_member, is_open, length_from, some_wrong};
pub use word::{
    has_const, has_restrict, is_sized, named_type, plain, qualify, restrict_behind, word_shape,
};
