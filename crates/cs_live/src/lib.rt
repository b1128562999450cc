//! Live queries: their last answers, kept as documents change.
#![tactic(auto)]

mod entry;
mod laws;
mod live;

pub use entry::LiveLine;
pub use laws::simple_lives_ask_nothing;
pub use live::{Live, LiveFault, MOST_LIVES};
