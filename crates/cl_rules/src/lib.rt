//! The pattern drawers: the typing rules of operators, calls and casts, as functions of what their operands are. Each
//! says the least code of a rule that is broken, or what is made.
#![tactic(auto)]

pub mod assigning;
pub mod call;
pub mod operand;
pub mod operator;
pub mod part;
pub mod rule;

pub use assigning::assignment;
pub use call::{
    call_of, cast_rule, is_no_pointee, literal, no_size, pointer_to, size_broken, wants_of,
};
pub use operand::{component, first_broken, no_pointer, no_value, seen, to_array, type_of, value};
pub use operator::{binary, dereferenced, space_or_private, unary};
pub use part::{chosen, comma, indexed, member, selection};
pub use rule::{Amount, Changing, Head, Judged, Made, Meeting, Operand, Qualified, Target, Want};
