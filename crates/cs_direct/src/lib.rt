//! Expressions whose values need no memory and no document but those at hand, evaluated directly.
#![tactic(auto)]

mod expressions;
mod few;
mod follow;
mod functions;
mod operators;
mod part;

pub use expressions::direct;
pub use part::direct_part;
