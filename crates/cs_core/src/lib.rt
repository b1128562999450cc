//! The store's machine: its state, and what each line of a script does to it.
#![tactic(auto)]

mod laws;
mod listen;
mod live;
mod machine;
mod moment;
mod query;

pub use laws::simple_lines_keep_lives_simple;
pub use machine::{Core, CoreFault, Replies};
