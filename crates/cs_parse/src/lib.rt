//! Queries from their texts.
#![tactic(auto)]

mod depth;
mod fault;
mod laws;
mod lexemes;
mod query;

pub use fault::ParseFault;
pub use laws::{
    a_text_is_one_query_at_most, depth_is_decided, each_text_is_read, reading_is_verdict,
    spelling_is_decided, tokens_are_read,
};
pub use query::parse;

#[cfg(test)]
mod tests;
