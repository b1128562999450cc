//! The documents of the store, the view that they are, and the changes that the store takes.
#![tactic(auto)]

mod dangling;
mod docs;
mod gather;
mod install;
pub mod laws;
mod make;
mod missing;
mod prepared;
mod referrers;
#[cfg(test)]
mod tests;
mod view;

pub use dangling::{Dangling, first_dangling};
pub use docs::{Docs, MOST_DOCUMENTS};
pub use prepared::{PrepareFault, Prepared};
pub use referrers::Referrers;
