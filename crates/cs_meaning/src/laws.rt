//! What values and look-ups have in common over all expressions, those that no text spells among
//! them. The functions do nothing: each is there for its clause.
ghost use Rattle.cs_meaning.specs.Laws.{LookedSettlesValue, TrueHasKey, TrueHasEachKey, SimpleLooksUpItsKey, SimpleIsTailOfHits, RestKeepsNull, QuietAsksNothing, HitsHaveKey, FunctionsAreEvaluated, SortedInOrder, SortedInOneWay};

use cs_ops::total_is_a_preorder;

/// Over two lists of documents that have the same documents of each key looked up, a query has the
/// same value and looks up the same keys, in every scope. Also where a look-up found nothing.
pub fn looked_settles_value()
    ensures { LookedSettlesValue }
{}

/// A document that makes a filter true has the filter's key, over every dataset and in every scope.
pub fn true_has_key()
    ensures { TrueHasKey }
{}

/// A document that makes a filter true has each of the keys that the filter gives, over every
/// dataset and in every scope; and a document that has each of them has the filter's key.
pub fn true_has_each_key()
    ensures { TrueHasEachKey }
{}

/// A simple query looks up the key of its filter and nothing else.
pub fn simple_looks_up_its_key()
    ensures { SimpleLooksUpItsKey }
{}

/// The value of a simple query is what the steps behind its filter make of the documents that make
/// the filter true, and no dataset is asked for these two.
pub fn simple_is_tail_of_hits()
    ensures { SimpleIsTailOfHits }
{}

/// An expression in which neither `*` nor `->` stands looks nothing up, and has the same value over
/// all documents.
pub fn quiet_asks_nothing()
    ensures { QuietAsksNothing }
{}

/// The documents that make a simple query's filter true are among those that have its key.
pub fn hits_have_key()
    ensures { HitsHaveKey }
{}

/// A rest of a chain gives null of null.
pub fn rest_keeps_null()
    ensures { RestKeepsNull }
{}

/// A query may call a function by a name exactly where evaluation has a function of that name, and
/// both take the same arguments.
pub fn functions_are_evaluated()
    ensures { FunctionsAreEvaluated }
{}

/// `order` gives the one list that has the same elements, ascends by their keys under the total
/// order, each reversed where it is descending, and keeps ties as they stood.
pub fn sorted_in_one_way()
    ensures order { SortedInOrder }
    ensures unique { SortedInOneWay }
{
    total_is_a_preorder();
}
