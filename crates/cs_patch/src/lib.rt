//! Patches of documents: their types, what each is worth, as definitions, the laws of these, and
//! patches applied.
#![tactic(auto)]

mod all;
mod count;
mod entries;
mod fault;
mod insert;
pub mod laws;
mod lists;
mod patch;
mod read;
mod read_patch;
mod refusal;
mod set;
mod stamp;
mod stop;
mod turns;
mod unset;

pub use cs_alter::Side;
pub use fault::{PatchFault, PathsFault};
pub use patch::{Insert, Patch};
pub use read_patch::{ReadPatch, apply};
