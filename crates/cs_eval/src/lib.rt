//! The value of a query over the documents of a view, and what finding it looks up.
#![tactic(auto)]

mod each;
mod ordered;
mod queries;
mod windows;

pub use cs_meaning::{
    functions_are_evaluated, hits_have_key, looked_settles_value, quiet_asks_nothing,
    rest_keeps_null, simple_is_tail_of_hits, simple_looks_up_its_key, sorted_in_one_way,
    true_has_key,
};
pub use cs_parts::Got;
pub use each::{mapped, share};
pub use queries::{eval, hit, hits, query_key, query_keys, tail};
pub use windows::{is_near, nearest, tail_over, window, windowed};
