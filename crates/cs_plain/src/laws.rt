//! The laws of plain predicates, for proofs: each function does nothing, and its contract is the
//! law.
ghost use Rattle.cs_plain.specs.Laws.{PlainIsQuiet, PlainHoldsAnywhere, TrueHasPredicateKeys};

use cs_meaning::{quiet_asks_nothing, true_has_each_key};

/// A filter that a listener may have has neither `*` nor `->`, and is the same over all documents.
pub fn plain_is_quiet()
    ensures { PlainIsQuiet }
{
    quiet_asks_nothing();
}

/// A filter that a listener may have is true of a document over every dataset where it is over
/// none.
pub fn plain_holds_anywhere()
    ensures { PlainHoldsAnywhere }
{
    plain_is_quiet();
}

/// A document of which a filter is true has each of the filter's keys.
pub fn true_has_predicate_keys()
    ensures { TrueHasPredicateKeys }
{
    true_has_each_key();
}
