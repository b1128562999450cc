//! What settles the answer of a live query: which documents, where it is made of the first few of
//! an order, and which look-ups for each document, where it is made hit by hit.
#![tactic(auto)]

mod laws;

pub use laws::{
    first_settle_tail, looked_settles_share, looked_settles_tail, mapped_is_filtered,
    mapped_is_shares, mapped_is_shares_of_hits, nearer_is_within, place_bounds_window,
    simple_is_filtered, sorted_in_two, window_settles_tail, window_settles_tail_over,
    windowed_is_filtered, windowed_is_tail_of_hits,
};
