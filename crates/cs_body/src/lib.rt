//! Bodies: the transaction that stands in a command.
#![tactic(auto)]

mod ids;
mod insert;
mod laws;
mod mutation;
mod parts;
mod patch;
mod target;
mod txn;

pub use laws::{transactions_are_within, transactions_have_ids};
pub use txn::{Mutation, Target, Txn, TxnFault};
