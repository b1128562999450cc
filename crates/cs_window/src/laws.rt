//! What an order and a window have in common over all lists. The functions do nothing: each is
//! there for its clause.
ghost use Rattle.cs_window.specs.Laws.{FirstSettleTail, NearerIsWithin, PlaceBoundsWindow};
ghost use Rattle.cs_window.specs.Laws.{LookedSettlesShare, LookedSettlesTail, SimpleIsFiltered};
ghost use Rattle.cs_window.specs.Laws.{MappedIsFiltered, MappedIsShares, MappedIsSharesOfHits, SortedInTwo};
ghost use Rattle.cs_window.specs.Laws.{WindowSettlesTail, WindowSettlesTailOver};
ghost use Rattle.cs_window.specs.Laws.{WindowedIsFiltered, WindowedIsTailOfHits};

/// Where a test that passes an element passes each one that does not rank behind it, an order is
/// that of the elements that pass, and behind them that of the others.
pub fn sorted_in_two()
    ensures { SortedInTwo }
{}

/// What the steps behind a filter make of documents, where an order stands first and the step
/// behind it looks at the first few alone: what the steps behind the order make of these first
/// few.
pub fn first_settle_tail()
    ensures { FirstSettleTail }
{}

/// Two lists of documents give the same answer where those of them that do not stand behind a bound
/// are the same, and no fewer than the answer is made of.
pub fn window_settles_tail()
    ensures { WindowSettlesTail }
{}

/// What the document at a place of the order is ordered by bounds a window that does not reach
/// beyond the place.
pub fn place_bounds_window()
    ensures { PlaceBoundsWindow }
{}

/// What one of the documents that do not stand behind a bound is ordered by is a nearer bound:
/// those that do not stand behind it are all among them.
pub fn nearer_is_within()
    ensures { NearerIsWithin }
{}

/// A simple query is filtered: `*` and a filter behind it.
pub fn simple_is_filtered()
    ensures { SimpleIsFiltered }
{}

/// So is a windowed query.
pub fn windowed_is_filtered()
    ensures { WindowedIsFiltered }
{}

/// The value of a windowed query is what the steps behind its filter make of its hits, and it looks
/// up its key and what these steps look up.
pub fn windowed_is_tail_of_hits()
    ensures { WindowedIsTailOfHits }
{}

/// What the steps behind a filter look up settles what they make of documents.
pub fn looked_settles_tail()
    ensures { LookedSettlesTail }
{}

/// Two lists of documents give the same over each dataset, and the same is looked up, where those
/// of them that do not stand behind a bound are the same, and no fewer than a windowed query has.
pub fn window_settles_tail_over()
    ensures { WindowSettlesTailOver }
{}

/// A mapped query is filtered.
pub fn mapped_is_filtered()
    ensures { MappedIsFiltered }
{}

/// What the steps behind a mapped query's filter make of documents is the list of their shares, and
/// they look up what finding each share looks up.
pub fn mapped_is_shares()
    ensures { MappedIsShares }
{}

/// The value of a mapped query is the list of the shares of its hits, and it looks up its key and
/// what finding each share looks up.
pub fn mapped_is_shares_of_hits()
    ensures { MappedIsSharesOfHits }
{}

/// What finding a share looks up settles it.
pub fn looked_settles_share()
    ensures { LookedSettlesShare }
{}
