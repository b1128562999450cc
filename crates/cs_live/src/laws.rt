//! What is known of entries to which a commit brings nothing. The functions do nothing: they are
//! there for their clauses.
ghost use Rattle.cs_live.specs.Brought.{UnaskedStays};
ghost use Rattle.cs_live.specs.Laws.{SimpleLivesAskNothing};

use cs_eval::{hits_have_key, looked_settles_value, simple_is_tail_of_hits};
use cs_interest::laws::{narrowest_is_had, touched_is_asked};
use cs_meaning::true_has_each_key;
use cs_view::laws::{changes_lead_back_and_on, untouched_selects_the_same};
use cs_window::{
    looked_settles_share, looked_settles_tail, mapped_is_shares_of_hits, windowed_is_tail_of_hits,
};

/// An entry whose number is not asked for is as it has to be after the changes, and has no line.
pub(crate) fn unasked_stays()
    ensures { UnaskedStays }
{
    touched_is_asked();
    looked_settles_value();
    hits_have_key();
    windowed_is_tail_of_hits();
    looked_settles_tail();
    looked_settles_share();
    mapped_is_shares_of_hits();
    simple_is_tail_of_hits();
    true_has_each_key();
    narrowest_is_had();
    untouched_selects_the_same();
    changes_lead_back_and_on();
}

/// Where each live query is simple, nothing is asked of a view after any changes.
pub fn simple_lives_ask_nothing()
    ensures { SimpleLivesAskNothing }
{}
