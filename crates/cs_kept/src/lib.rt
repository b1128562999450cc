//! Last answers of live queries, each with what it takes to keep it as documents change.
#![tactic(auto)]

mod evaluated;
mod kept;
mod mapped;
mod recorded;
mod rows;
mod same;
mod settling;

pub use kept::Kept;
