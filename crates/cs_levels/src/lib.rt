//! The open levels of a chain, and what an evaluation makes of values that it has found.
#![tactic(auto)]

mod brackets;
mod found;
mod levels;
mod lookups;
mod nodes;
mod pipes;

pub use brackets::{InBracket, in_bracket, ordered_elements};
pub use found::{
    applied_got, is_among, lies_between, list_in_order, matches_path, operated_got, push_got,
    refers_to,
};
pub use levels::{Level, Reached, Remaining, Task, entering, next_task};
pub use lookups::look_up;
pub use nodes::{condition_of, element_expr, entry_expr, put_element, put_entry};
pub use pipes::{Piped, base_entrance, filter_of_all, next_pipe};
