//! The queries that were read last, kept by their texts, so that a text that comes again is not
//! read again.
#![tactic(auto)]

mod marks;
mod recent;

pub use recent::Recent;

#[cfg(test)]
mod tests;
