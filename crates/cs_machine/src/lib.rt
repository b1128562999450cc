//! The plain machine over the lines of a script, as definitions, and the laws of these.
#![tactic(auto)]

pub mod laws;
