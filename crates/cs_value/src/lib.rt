//! Values, their texts and objects, and the counter of visits.
#![tactic(auto)]

mod copy;
mod depth;
mod id;
mod map;
mod memory;
mod same;
mod steps;
#[cfg(test)]
mod tests;
mod txt;
mod val;
mod within;

pub use id::is_id;
pub use map::OrderedMap;
pub use memory::{NoMemory, NoName};
pub use steps::Steps;
pub use txt::order::compared;
pub use txt::{MOST_INSIDE, Txt};
pub use val::{Fields, Val};
