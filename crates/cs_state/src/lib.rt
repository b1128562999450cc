//! The state of the store's machine, and what a transaction does to it.
#![tactic(auto)]

mod answer;
mod ready;
mod state;
mod transact;

pub use answer::write_answer;
pub use state::State;
