//! The kinds of keys by which the filters of a query ask for documents.
#![tactic(auto)]

mod asked;
mod paths;
mod wanted;

pub use wanted::wanted_kinds;

#[cfg(test)]
mod tests;
