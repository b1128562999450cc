//! The laws of references, for proofs: each function does nothing, and its contract is the law.
ghost use Rattle.cs_docs.specs.Laws.{NoneDanglesWhereClean, FitsWithinAndClean, FullAboveTheLimit, WithoutReferencesItStaysClean};

/// No reference dangles exactly where the dataset is clean.
pub fn none_dangles_where_clean()
    ensures { NoneDanglesWhereClean }
{}

/// A dataset fits exactly where it is within the limit and clean.
pub fn fits_within_and_clean()
    ensures { FitsWithinAndClean }
{}

/// A dataset is full exactly where it is above the limit.
pub fn full_above_the_limit()
    ensures { FullAboveTheLimit }
{}

/// A dataset to which a document without strong references comes stays clean.
pub fn without_references_it_stays_clean()
    ensures { WithoutReferencesItStaysClean }
{}
