//! The value of an expression over the documents of a source, and what finding it looks up.
#![tactic(auto)]

mod calls;
mod chains;
mod expressions;
mod setting;
mod steps;

pub use chains::{enter, pipes, through};
pub use expressions::eval;
pub use setting::Setting;
pub use steps::{holds, keep_lent, rank_each, rank_into, rank_keys};
