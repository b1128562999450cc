//! The tokens and the syntax trees of a query.
#![tactic(auto)]

mod blank;
mod decode;
mod escape;
mod forms;
mod laws;
mod longest;
mod number;
mod query;
mod sign;
mod text;
mod token;
mod tree;
mod written;

pub use decode::unescape;
pub use laws::{a_text_is_read_in_one_way, a_token_means_its_source};
pub use query::Query;
pub use sign::Sign;
pub use token::{Kind, Token, TokenFault, next_token, tokens};
pub use tree::{Arg, BinSign, Elem, Entry, Expr, OrderKey, PreSign, Step};
pub use written::{
    has_exponent, has_fraction, is_path, whole_number, without_global, written_number,
};

#[cfg(test)]
mod tests;
