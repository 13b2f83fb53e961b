//! The module's room: a SPIR-V module as data, the table of the operands of each instruction that
//! the compiler knows, and the numbers of SPIR-V that it uses. Every room that reads, writes, checks
//! or builds modules stands on it.
#![tactic(auto)]

pub mod enumerant;
pub mod forms;
pub mod lookup;
pub mod module;
pub mod op;
pub mod reading;
pub mod size;
pub mod table;

pub use forms::{Form, Last, Slot};
pub use module::{Inst, Module, Operand};
pub use table::form;
