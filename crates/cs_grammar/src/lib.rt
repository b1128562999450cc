//! Which expression a list of tokens spells.
#![tactic(auto)]

mod bases;
mod chains;
mod fault;
mod laws;
mod level;
mod lexeme;
mod look;
mod make;
mod objects;
mod operators;
mod whole;

pub use fault::GrammarFault;
pub use laws::one_expression;
pub use lexeme::{Form, Lexeme};
pub use whole::read;
