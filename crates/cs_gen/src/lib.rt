//! The generated script: its lines, one by one, and the summary of its replies.
#![tactic(auto)]

mod lines;
mod tally;
mod text;

pub use lines::gen_line;
pub use tally::Tally;
