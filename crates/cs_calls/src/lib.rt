//! What functions and calls make of values that are found.
#![tactic(auto)]

mod functions;
mod one;

pub use functions::applied;
pub use one::sole;
