//! What stays the same while a query is evaluated.
use cs_value::Fields;
use std::alloc::Global;

/// What stays the same in one evaluation, whatever expression it has come to.
#[derive(Clone, Copy)]
pub struct Setting<'s, S> {
    /// The allocator that gives room for what is made.
    pub alloc: Global,
    /// The parameters of the query, by their names without `$`.
    pub params: &'s Fields,
    /// Where documents are looked up.
    pub source: &'s S,
}
