//! How a line is refused whose transaction, or whose query, is none that is taken.
#![tactic(auto)]

mod query;
mod refused;

pub use query::no_query;
pub use refused::write_refused;
