//! The pattern room: the words of the language's operators, built-in functions and address spaces, which
//! every later room speaks; and its types, each with one number in a table, and how their scalars lie in
//! memory.
#![tactic(auto)]

pub mod builtin;
pub mod laws;
pub mod operator;
pub mod same;
pub mod scalars;
pub mod space;
pub mod stop;
pub mod table;
pub mod types;

pub use builtin::Builtin;
pub use operator::{BinOp, UnOp};
pub use scalars::Scalar;
pub use space::Space;
pub use stop::TypeStop;
pub use table::TypeTable;
pub use types::{ClType, Member, TypeId};
