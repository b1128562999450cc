//! The keys that finding an answer looked up, in a form in which a change finds them.
#![tactic(auto)]

mod keys;

pub use keys::Keys;
