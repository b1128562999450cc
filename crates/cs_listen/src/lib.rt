//! Listeners: which ones stand, and what they hear of changes.
#![tactic(auto)]

mod hearing;
mod listeners;
mod listening;
mod postings;
mod transition;

pub use cs_reply::{Event, Transition};
pub use listeners::{ListenFault, Listeners, MOST_LISTENERS};
pub use transition::transition_of;
