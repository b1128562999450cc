//! The elements of a list in the order of their keys: all of them, or the first of them alone.
#![tactic(auto)]

mod asked;
mod first;
mod pipes;
mod ranks;

pub use asked::first_asked;
pub use first::{admit, in_order};
pub use pipes::pipe_of;
pub use ranks::{Ranked, compare_keys, is_above, items_of, key_at, owned};
