//! Keys of interest: which numbers stand for the keys that changes touch, found by codes.
#![tactic(auto)]

mod asked;
mod changed;
mod code;
mod interest;
pub mod laws;
mod narrow;
mod pair;
mod put;

pub use changed::codes_of_changes;
pub use code::interest_code;
pub use interest::Interest;
pub use narrow::narrowest_code;
pub use pair::Pair;
