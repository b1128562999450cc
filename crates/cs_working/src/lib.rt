//! The dataset that a transaction works on, and the changes that it leads to.
#![tactic(auto)]

mod changed;
mod count;
mod merge;
mod places;
mod view;
mod working;

pub use working::Working;
