//! Transactions: what each comes to over a store's dataset, and the laws of these.
#![tactic(auto)]

mod change;
mod commit;
mod delete;
mod find;
pub mod laws;
mod mutate;
mod named;
mod stamp;
mod why;

pub use commit::prepare;
pub use stamp::{has_text, put_text};
pub use why::{Refusal, Why};
