//! What a query is worth over a list of documents and what finding it looks up, with the laws of
//! both: definitions, and no code but the names of the ways in which steps are joined.
#![tactic(auto)]

mod examples;
mod join;
mod laws;

pub use join::{Entrance, Form, Kind, Shape, Way};
pub use laws::{
    functions_are_evaluated, hits_have_key, looked_settles_value, quiet_asks_nothing,
    rest_keeps_null, simple_is_tail_of_hits, simple_looks_up_its_key, sorted_in_one_way,
    true_has_each_key, true_has_key,
};
