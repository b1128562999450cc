//! Answers that are kept with the keys that finding them looked up.
ghost use Rattle.std.specs.Prelude.{◌≡◌, false, true, not, IfOk, IfSome, OnOk};
ghost use Rattle.cs_value.specs.Same.{same_tree};
ghost use Rattle.cs_value.specs.View.{tree, fields};
ghost use Rattle.cs_syntax.specs.Queries.{expression_of};
ghost use Rattle.cs_view.specs.Changes.{are_changes, LeadTo, before_changes};
ghost use Rattle.cs_view.specs.Touched.{touched};
ghost use Rattle.cs_view.specs.View.{edits};
ghost use Rattle.cs_window.specs.Windowed.{is_windowed};
ghost use Rattle.cs_kept.specs.Evaluated.{IsEvaluated};
ghost use Rattle.cs_kept.specs.Fits.{is_by_hits, Answers, FitsRecord, FitsWindow, RefreshesKept};
ghost use Rattle.cs_kept.specs.Followed.{AreHeld, CanFollow, Followed, KeepsAnswer, StaysSettled};
ghost use Rattle.cs_kept.specs.Found.{IsCoded, IsFound, KeepsOthers};
ghost use Rattle.cs_keys.specs.Keys.{all_keys, rest_of};
ghost use Rattle.cs_kept.specs.declared.kept.Kept.{Kept};

use crate::evaluated::{Evaluated, evaluate, evaluate_behind};
use crate::same::is_same;
use cs_codes::Seed;
use cs_eval::{hits_have_key, looked_settles_value, windowed};
use cs_hits::Behind;
use cs_interest::Interest;
use cs_keys::Keys;
use cs_syntax::Query;
use cs_value::{Fields, NoMemory, Steps, Val};
use cs_view::laws::{changes_lead_back_and_on, filter_follows_changes, untouched_selects_the_same};
use cs_view::{Change, View};
use cs_window::{
    looked_settles_tail, window_settles_tail_over, windowed_is_filtered, windowed_is_tail_of_hits,
};
use std::alloc::Global;
use std::sync::ledger::Ledger;

/// A query with its last answer, and the keys that finding it looked up. Where it is windowed, with
/// the documents behind the answer besides.
#[derive(Drop)]
pub struct Recorded {
    pub(crate) query: Query,
    pub(crate) params: Fields,
    pub(crate) last: Val,
    pub(crate) keys: Keys,
    pub(crate) behind: Option<Behind>,
}

impl Recorded {
    /// The query, which is neither simple nor mapped, with its value over the view as its answer.
    pub(crate) fn build<V: View<L>, L: Ledger>(
        alloc: Global,
        seed: &Seed,
        query: Query,
        params: Fields,
        view: &V,
        steps: &mut Steps<L>,
    ) -> Result<Recorded, NoMemory>
        requires compound { is_by_hits (expression_of query) ≡ false }
        ensures answers { IfOk result (λ r. Answers (V.docs view.now) (expression_of query)
            (fields params) (Kept.ByRecord r)) }
        ensures coded { IfOk result (λ r. IsCoded seed.now (Kept.ByRecord r)) }
    {
        if windowed(&query) {
            return Recorded::build_windowed(alloc, seed, query, params, view, steps);
        }
        // A query is dropped by name: left to the compiler, its whole drop would stand, and be
        // proved, at each place.
        let Ok(found) = evaluate(alloc, seed, &query, &params, view, steps) else {
            drop((query, params));
            return Err(NoMemory);
        };
        Ok(Recorded {
            query,
            params,
            last: found.answer,
            keys: found.keys,
            behind: None,
        })
    }

    // The same of a windowed query.
    fn build_windowed<V: View<L>, L: Ledger>(
        alloc: Global,
        seed: &Seed,
        query: Query,
        params: Fields,
        view: &V,
        steps: &mut Steps<L>,
    ) -> Result<Recorded, NoMemory>
        requires compound { is_by_hits (expression_of query) ≡ false }
        requires windowed { is_windowed (expression_of query) ≡ true }
        ensures answers { IfOk result (λ r. Answers (V.docs view.now) (expression_of query)
            (fields params) (Kept.ByRecord r)) }
        ensures coded { IfOk result (λ r. IsCoded seed.now (Kept.ByRecord r)) }
    {
        windowed_is_filtered();
        let Ok(mut behind) = Behind::find(alloc, &query, &params, view, steps) else {
            drop((query, params));
            return Err(NoMemory);
        };
        let found = evaluate_behind(&mut behind, alloc, seed, &query, &params, view, steps);
        let Ok(found) = found else {
            drop((query, params, behind));
            return Err(NoMemory);
        };
        Ok(Recorded {
            query,
            params,
            last: found.answer,
            keys: found.keys,
            behind: Some(behind),
        })
    }

    // Brings the documents behind a windowed query's answer to those after the changes: whether the
    // answer has to be found anew.
    fn follow(&mut self, alloc: Global, changes: &[Change]) -> Result<bool, NoMemory>
        requires changes { are_changes (edits changes.now) ≡ true }
        requires behind { IfSome self.old.behind (CanFollow self.old) }
        ensures followed { OnOk result (Followed (edits changes.now) self.old self.new) }
        ensures settled { IfOk result (λ b. b ≡ false
            → StaysSettled (edits changes.now) self.old self.new) }
        ensures asks { KeepsAnswer self.old self.new }
    {
        match &mut self.behind {
            Some(behind) => {
                let moved = behind.follow(alloc, &self.query, &self.params, changes)?;
                Ok(moved || self.keys.rest_touched(changes))
            }
            None => Ok(true),
        }
    }

    // The value over the view, from the documents behind a windowed query, and from all for
    // another.
    fn evaluate<V: View<L>, L: Ledger>(
        &mut self,
        alloc: Global,
        seed: &Seed,
        view: &V,
        steps: &mut Steps<L>,
    ) -> Result<Evaluated, NoMemory>
        requires { IfSome self.old.behind (AreHeld (V.docs view.now) self.old) }
        ensures evaluated { IfOk result (IsEvaluated (V.docs view.now)
            (expression_of self.old.query) (fields self.old.params) seed.now) }
        ensures fits { IfOk result (λ found. IfSome self.new.behind (FitsWindow (V.docs view.now)
            (expression_of self.old.query) (fields self.old.params) (rest_of found.keys))) }
        ensures asks { KeepsAnswer self.old self.new }
    {
        match &mut self.behind {
            Some(behind) => {
                evaluate_behind(behind, alloc, seed, &self.query, &self.params, view, steps)
            }
            None => evaluate(alloc, seed, &self.query, &self.params, view, steps),
        }
    }

    /// Brings the answer to the dataset after the changes, and the number to the keys that finding
    /// it looks up now: whether it is another tree now. Where no change touches the keys, all stays
    /// as it is and nothing is asked of the view.
    pub(crate) fn refresh<V: View<L>, L: Ledger>(
        &mut self,
        alloc: Global,
        number: u64,
        interest: &mut Interest,
        view: &V,
        changes: &[Change],
        steps: &mut Steps<L>,
    ) -> Result<bool, NoMemory>
        requires changes { are_changes (edits changes.now) ≡ true }
        requires led { LeadTo (V.docs view.now) (edits changes.now) }
        requires fits { FitsRecord (before_changes (V.docs view.now) (edits changes.now)) self.old }
        requires found { IsFound interest.old number (Kept.ByRecord self.old) }
        ensures refreshed { OnOk result (RefreshesKept (V.docs view.now) (edits changes.now)
            (Kept.ByRecord self.old) (Kept.ByRecord self.new)) }
        ensures stale { IfOk result
            (λ b. b ≡ not (same_tree (tree self.new.last) (tree self.old.last))) }
        ensures quiet { touched (all_keys self.old.keys) (edits changes.now) ≡ false
            → steps.new ≡ steps.old }
        ensures found { OnOk result (IsFound interest.new number (Kept.ByRecord self.new)) }
        ensures others { OnOk result (KeepsOthers number interest.old interest.new) }
    {
        looked_settles_value();
        untouched_selects_the_same();
        changes_lead_back_and_on();
        hits_have_key();
        windowed_is_filtered();
        windowed_is_tail_of_hits();
        looked_settles_tail();
        if !self.keys.touched(changes) {
            return Ok(false);
        }
        filter_follows_changes();
        window_settles_tail_over();
        if !self.follow(alloc, changes)? {
            return Ok(false);
        }
        let found = self.evaluate(alloc, interest.seed(), view, steps)?;
        interest.leave(number, &self.keys.codes);
        interest.enter(number, &found.keys.codes)?;
        let stale = !is_same(&found.answer, &self.last);
        self.keys = found.keys;
        self.last = found.answer;
        Ok(stale)
    }
}
