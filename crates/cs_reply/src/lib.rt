//! The replies to the lines of a script, and the line that ends a run early, written from borrowed
//! parts: no value is copied.
#![tactic(auto)]

mod committed;
mod event;
mod found;
mod line;
mod live;
mod refusal;
mod reply;
mod stated;
#[cfg(test)]
mod tests;

pub use event::{Event, Transition};
pub use line::{write_line, write_value};
pub use live::write_live;
pub use refusal::Refusal;
pub use reply::{Operation, Outcome, Reply};
pub use stated::{Cause, Source, Stop};
