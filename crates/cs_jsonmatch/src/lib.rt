//! JSONMatch paths: how they are written, and which places of a value they select.
#![tactic(auto)]

mod class;
mod cursor;
mod items;
mod laws;
mod literals;
mod path;
mod places;
mod read;
mod select;
mod sole;
mod steps;
mod walk;

pub use laws::{a_text_spells_at_most_one_path, each_text_is_read, reading_is_verdict};
pub use path::{Comparison, Item, Items, JsonPath, Step, Test};
pub use places::{Part, Place, copy_parts};
pub use read::PathFault;
