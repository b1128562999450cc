//! Which elements are none of the first of an order.
#![tactic(auto)]

mod past;

pub use past::{are_quiet, compare_parts, is_past};
