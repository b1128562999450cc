//! The laws of transactions, for proofs: each function does nothing, and its contract is the law.
ghost use Rattle.cs_body.specs.Laws.{TransactionsAreWithin, TransactionsHaveIds};

/// No text and no value of a transaction is wider than the widest of the body that it is, and it
/// has no more mutations than the longest list there has members.
pub fn transactions_are_within()
    ensures { TransactionsAreWithin }
{}

/// The id of a transaction is one that a client may give, or that of its line.
pub fn transactions_have_ids()
    ensures { TransactionsHaveIds }
{}
