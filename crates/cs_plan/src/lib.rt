//! Which key a filter has, and which queries are simple.
#![tactic(auto)]

mod choice;
mod conjuncts;
mod constants;
pub mod examples;
mod given;
mod lent;
mod numbers;
mod paths;
mod quiet;
mod scopes;
mod steps;
mod tails;

pub use choice::{choose, first_by_kind};
pub use given::filter_keys;
pub use numbers::{literal, negative_of};
pub use quiet::is_quiet;
pub use scopes::up;
pub use steps::{are_names, at_names, name_of};
pub use tails::{is_condition, simple};
