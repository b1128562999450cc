//! Names and dereferences behind a value: what they make of it, and what finding it looks up.
#![tactic(auto)]

mod trail;

pub use trail::{follow, is_trail};
