//! Answers of simple queries, that are kept with the documents behind them.
ghost use Rattle.std.specs.Prelude.{◌≡◌, ◌≤◌, ◌+◌, ◌∷◌, [], true, not, IfOk, OnOk};
ghost use Rattle.cs_value.specs.Same.{same_tree};
ghost use Rattle.cs_value.specs.View.{tree, fields};
ghost use Rattle.cs_syntax.specs.Queries.{expression_of};
ghost use Rattle.cs_view.specs.Changes.{are_changes, LeadTo, before_changes, after_changes, changes_where};
ghost use Rattle.cs_view.specs.Dataset.{ascending};
ghost use Rattle.cs_view.specs.View.{edits};
ghost use Rattle.cs_plan.specs.Simple.{is_simple};
ghost use Rattle.cs_interest.specs.Interest.{interest_code};
ghost use Rattle.cs_meaning.specs.Hits.{cost};
ghost use Rattle.cs_window.specs.Windowed.{is_filtered};
ghost use Rattle.cs_kept.specs.Fits.{Answers, FitsRows, RefreshesKept};
ghost use Rattle.cs_kept.specs.Found.{IsCoded, hit_key};
ghost use Rattle.cs_hits.specs.Hits.{AreNear, NoneIsNew};
ghost use Rattle.cs_kept.specs.Rows.{rows, is_row, AsksTheSame, IsSettled};
ghost use Rattle.cs_kept.specs.declared.kept.Kept.{Kept};

use crate::same::is_same;
use cs_codes::Seed;
use cs_eval::{query_keys, simple_is_tail_of_hits, tail};
use cs_hits::Hits;
use cs_interest::narrowest_code;
use cs_syntax::Query;
use cs_value::{Fields, NoMemory, Steps, Val};
use cs_view::laws::{changes_lead_back_and_on, filter_follows_changes};
use cs_view::{Change, View};
use cs_window::{simple_is_filtered, window_settles_tail};
use std::alloc::Global;
use std::sync::ledger::Ledger;

/// A simple query with the documents that make its filter true, its answer, and the code under
/// which interest in these documents is held.
#[derive(Drop)]
pub struct Rows {
    pub(crate) query: Query,
    pub(crate) params: Fields,
    pub(crate) hits: Hits,
    pub(crate) answer: Val,
    pub(crate) codes: Vec<u64>,
}

// The code under which interest in the hits of a simple query is held, as a list.
fn codes(alloc: Global, seed: &Seed, query: &Query, params: &Fields) -> Result<Vec<u64>, NoMemory>
    requires { is_filtered (expression_of query.now) ≡ true }
    ensures { IfOk result (λ cs. cs.items
        ≡ interest_code seed.now (hit_key (expression_of query.now) (fields params.now)) ∷ []) }
{
    let keys = query_keys(alloc, query, params)?;
    let mut codes = Vec::new(alloc);
    codes.push(narrowest_code(seed, &keys))?;
    Ok(codes)
}

impl Rows {
    /// The query with its hits in the view, and its answer.
    pub(crate) fn build<V: View<L>, L: Ledger>(
        alloc: Global,
        seed: &Seed,
        query: Query,
        params: Fields,
        view: &V,
        steps: &mut Steps<L>,
    ) -> Result<Rows, NoMemory>
        requires { is_simple (expression_of query) ≡ true }
        ensures answers { IfOk result (λ r. Answers (V.docs view.now) (expression_of query)
            (fields params) (Kept.InRows r)) }
        ensures coded { IfOk result (λ r. IsCoded seed.now (Kept.InRows r)) }
        ensures visits { steps.new
            ≤ steps.old + cost (expression_of query) (fields params) (V.docs view.now) }
    {
        simple_is_filtered();
        simple_is_tail_of_hits();
        window_settles_tail();
        // A query is dropped by name: left to the compiler, its whole drop would stand, and be
        // proved, at each place.
        let Ok(codes) = codes(alloc, seed, &query, &params) else {
            drop((query, params));
            return Err(NoMemory);
        };
        let Ok(hits) = Hits::find(alloc, &query, &params, view, steps) else {
            drop((query, params));
            return Err(NoMemory);
        };
        let Ok(answer) = tail(alloc, &query, &params, hits.settling()) else {
            drop((query, params));
            return Err(NoMemory);
        };
        Ok(Rows {
            query,
            params,
            hits,
            answer,
            codes,
        })
    }

    // Finds the answer anew: whether it is another tree now.
    fn settle(&mut self, alloc: Global) -> Result<bool, NoMemory>
        requires filtered { is_filtered (expression_of self.old.query) ≡ true }
        requires near { AreNear (expression_of self.old.query) (fields self.old.params)
            self.old.hits }
        ensures settled { OnOk result (IsSettled self.new) }
        ensures rows { OnOk result (rows self.new ≡ rows self.old) }
        ensures stale { IfOk result
            (λ b. b ≡ not (same_tree (tree self.new.answer) (tree self.old.answer))) }
        ensures asks { AsksTheSame self.old self.new }
    {
        window_settles_tail();
        self.hits.loosen(&self.query);
        let answer = tail(alloc, &self.query, &self.params, self.hits.settling())?;
        let stale = !is_same(&answer, &self.answer);
        self.answer = answer;
        self.hits.narrow(alloc, &self.query, &self.params)?;
        Ok(stale)
    }

    // Brings the rows and the answer behind the changes: whether the answer is another tree now.
    // Where no change touches what settles the answer it stays as it is.
    fn follow(&mut self, alloc: Global, changes: &[Change]) -> Result<bool, NoMemory>
        requires filtered { is_filtered (expression_of self.old.query) ≡ true }
        requires ascending { ascending (rows self.old) ≡ true }
        requires settled { IsSettled self.old }
        requires changes { are_changes (edits changes.now) ≡ true }
        requires new { NoneIsNew (edits changes.now) (rows self.old) }
        ensures rows { OnOk result (rows self.new
            ≡ after_changes (rows self.old) (changes_where (is_row self.old) (edits changes.now))) }
        ensures settled { OnOk result (IsSettled self.new) }
        ensures stale { IfOk result
            (λ b. b ≡ not (same_tree (tree self.new.answer) (tree self.old.answer))) }
        ensures asks { AsksTheSame self.old self.new }
    {
        window_settles_tail();
        if !self.hits.follow(alloc, &self.query, &self.params, changes)? {
            return Ok(false);
        }
        let stale = self.settle(alloc)?;
        Ok(stale)
    }

    /// Brings the rows and the answer to the dataset after the changes: whether the answer is
    /// another tree now. Nothing is asked of the view.
    pub(crate) fn refresh<V: View<L>, L: Ledger>(
        &mut self,
        alloc: Global,
        _view: &V,
        changes: &[Change],
    ) -> Result<bool, NoMemory>
        requires changes { are_changes (edits changes.now) ≡ true }
        requires led { LeadTo (V.docs _view.now) (edits changes.now) }
        requires fits { FitsRows (before_changes (V.docs _view.now) (edits changes.now)) self.old }
        ensures refreshed { OnOk result (RefreshesKept (V.docs _view.now) (edits changes.now)
            (Kept.InRows self.old) (Kept.InRows self.new)) }
        ensures stale { IfOk result
            (λ b. b ≡ not (same_tree (tree self.new.answer) (tree self.old.answer))) }
        ensures asks { AsksTheSame self.old self.new }
    {
        simple_is_filtered();
        simple_is_tail_of_hits();
        changes_lead_back_and_on();
        filter_follows_changes();
        let stale = self.follow(alloc, changes)?;
        Ok(stale)
    }
}
