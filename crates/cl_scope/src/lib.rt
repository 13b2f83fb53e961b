//! The name board: the declarations that enclose a place of the text, block by block, and the functions that
//! were declared before it, by which the typing rules find at once what a name means there (C99, 6.2.1 to 6.2.3).
#![tactic(auto)]

mod declarations;
mod functions;
pub mod names;
mod places;
pub mod scope;
mod spaces;

pub use names::Names;
pub use scope::{Declared, DeclaredKind, Scope, Signature};
