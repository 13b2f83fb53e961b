//! The drawing room: the grammar of the language, as definitions, and what the parsers read: tokens with what
//! they are to the grammar, and the names that typedefs declare. Its proofs hold what any reading of the grammar
//! from the left stands on: the rules of each part, the tokens that may begin one, and the steps from token to
//! token, up to the part's end or to the first token that no sentence has there.
#![tactic(auto)]

mod class;
pub mod lexeme;
mod mark;
pub mod names;
pub mod operator;
pub mod stop;
pub mod terminal;
mod weight;
mod word;

pub use lexeme::{Lexeme, lexemes, seen};
pub use names::{TypeName, TypeNames};
pub use operator::Operator;
pub use stop::ExprStop;
pub use terminal::Terminal;
pub use weight::first_over;
