//! Which keys some filters have, and which queries are simple. The functions do nothing: each is
//! there for its clause, which the checker computes.
ghost use Rattle.cs_plan.specs.Examples.{KindsInOrder, LeftmostOfAKind, NoKeyOfEither, BracketsOpened, PathsOfFour, ConstantsOfAFilter, OuterConstants, ReferencesOfOneText, SimpleQueries};

/// An id counts before a reference, a reference before a value at a path, and this before an
/// element.
pub fn kinds_in_order()
    ensures { KindsInOrder }
{}

/// Of two keys of one kind the leftmost counts, whichever side its path is on.
pub fn leftmost_of_a_kind()
    ensures { LeftmostOfAKind }
{}

/// What is joined by `||`, negated, compared otherwise or compared with null gives no key.
pub fn no_key_of_either()
    ensures { NoKeyOfEither }
{}

/// Round brackets around conjuncts are opened, those around a path or a constant are not.
pub fn brackets_opened()
    ensures { BracketsOpened }
{}

/// A path has at most four names, and each is an attribute of an object.
pub fn paths_of_four()
    ensures { PathsOfFour }
{}

/// What a path may be compared with: texts, numbers, booleans, and parameters that are one of
/// these.
pub fn constants_of_a_filter()
    ensures { ConstantsOfAFilter }
{}

/// Values of the scope around the filter are constants; the document itself is not.
pub fn outer_constants()
    ensures { OuterConstants }
{}

/// A reference is looked up where one text is given.
pub fn references_of_one_text()
    ensures { ReferencesOfOneText }
{}

/// Which queries are simple: `*` with one filter, and behind it no further one, no `->` and no `*`.
pub fn simple_queries()
    ensures { SimpleQueries }
{}
