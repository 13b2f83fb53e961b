//! The reflection room: what the reflection lines of a module say of its kernels and of what they take
//! (the extended instructions of NonSemantic.ClspvReflection.1).
#![tactic(auto)]

mod choice;
mod copying;
mod line;
mod named;
pub mod reading;
pub mod rows;
mod rules;
pub mod stop;
pub mod writing;
mod written;

pub use reading::{read_reflection, read_rows};
pub use rows::{ArgKindRow, ArgRow, ConstantRow, KernelRow, Reflection};
pub use stop::{ReflectStop, rule};
pub use writing::write_reflection;
