//! Mapped queries, whose answers are kept hit by hit.
ghost use Rattle.std.specs.Prelude.{◌≡◌, List, [], false, true, not, IfOk, OnOk};
ghost use Rattle.cs_value.specs.Same.{same_tree};
ghost use Rattle.cs_value.specs.Tree.{Tree};
ghost use Rattle.cs_value.specs.View.{tree, fields};
ghost use Rattle.cs_value.specs.Words.{list_of};
ghost use Rattle.cs_syntax.specs.Queries.{expression_of};
ghost use Rattle.cs_view.specs.Changes.{are_changes, LeadTo, before_changes};
ghost use Rattle.cs_view.specs.Dataset.{ascending};
ghost use Rattle.cs_view.specs.Touched.{touched};
ghost use Rattle.cs_view.specs.View.{edits};
ghost use Rattle.cs_plan.specs.Simple.{is_simple};
ghost use Rattle.cs_window.specs.Mapped.{is_mapped};
ghost use Rattle.cs_kept.specs.Fits.{Answers, FitsShares, RefreshesKept};
ghost use Rattle.cs_kept.specs.Found.{AreListed, IsCoded, IsFound, KeepsOthers};
ghost use Rattle.cs_hits.specs.Looked.{marks};
ghost use Rattle.cs_hits.specs.Shares.{AreShares, SameBut, SharesFollow, TellsCodes, share_docs, share_values, shares_looked};
ghost use Rattle.cs_kept.specs.Mapped.{KeepsAllButCodes, KeepsAllButLast, KeepsAllButShares, mapped_keys};
ghost use Rattle.cs_kept.specs.declared.kept.Kept.{Kept};

use crate::same::is_same;
use crate::settling::settle_places;
use cs_codes::Seed;
use cs_eval::{hits_have_key, query_key};
use cs_hits::{
    Share, answer_of, codes_of, find_shares, follow_shares, marks_of, may_touch, renew_shares,
    shares_touched,
};
use cs_interest::{Interest, interest_code};
use cs_syntax::Query;
use cs_value::{Fields, NoMemory, Steps, Val};
use cs_view::laws::{changes_lead_back_and_on, filter_follows_changes, untouched_selects_the_same};
use cs_view::{Change, Key, View, is_touched};
use cs_window::{looked_settles_share, mapped_is_filtered, mapped_is_shares_of_hits};
use std::alloc::Global;
use std::sync::ledger::Ledger;

// Where there are so many shares, the codes of changes are sought among those of the shares first:
// to ask each share costs less where there are fewer.
const MANY_SHARES: usize = 256;

/// A mapped query with its last answer, its own key, the shares of its hits in the answer by
/// ascending id, and the codes under which interest is held in its key and, behind that one and
/// ascending, in those that finding the shares looked up.
#[derive(Drop)]
pub struct Mapped {
    pub(crate) query: Query,
    pub(crate) params: Fields,
    pub(crate) last: Val,
    pub(crate) own: Key,
    pub(crate) shares: Vec<Share>,
    pub(crate) codes: Vec<u64>,
}

// Which shares are not as they were: the places of those that were found anew, whether one was
// taken out, or put where none stood, so that others stand elsewhere now, and whether interest in
// what finding them looked up may be held under other codes.
#[derive(Drop)]
struct Moved {
    anew: Vec<usize>,
    shifted: bool,
    recoded: bool,
}

// The codes of a query's own key and of those that finding the shares looked up.
fn listed(alloc: Global, seed: &Seed, own: &Key, shares: &[Share]) -> Result<Vec<u64>, NoMemory>
    ensures { IfOk result
        (λ cs. AreListed seed.now own.now (shares_looked shares.now) cs.items) }
{
    let behind = codes_of(alloc, seed, shares)?;
    let mut codes = Vec::with_capacity(alloc, behind.len().saturating_add(1))?;
    codes.push(interest_code(seed, own))?;
    codes.extend_from_slice(&behind)?;
    Ok(codes)
}

impl Mapped {
    /// The query, which is not simple, with its value over the view as its answer.
    pub(crate) fn build<V: View<L>, L: Ledger>(
        alloc: Global,
        seed: &Seed,
        query: Query,
        params: Fields,
        view: &V,
        steps: &mut Steps<L>,
    ) -> Result<Mapped, NoMemory>
        requires compound { is_simple (expression_of query) ≡ false }
        requires mapped { is_mapped (expression_of query) ≡ true }
        ensures answers { IfOk result (λ m. Answers (V.docs view.now) (expression_of query)
            (fields params) (Kept.InShares m)) }
        ensures coded { IfOk result (λ m. IsCoded seed.now (Kept.InShares m)) }
    {
        mapped_is_filtered();
        mapped_is_shares_of_hits();
        // A query is dropped by name: left to the compiler, its whole drop would stand, and be
        // proved, at each place.
        let Ok(shares) = find_shares(alloc, &query, &params, view, steps) else {
            drop((query, params));
            return Err(NoMemory);
        };
        let Ok(own) = query_key(alloc, &query, &params) else {
            drop((query, params));
            return Err(NoMemory);
        };
        let Ok(codes) = listed(alloc, seed, &own, &shares) else {
            drop((query, params, own));
            return Err(NoMemory);
        };
        let Ok(last) = answer_of(alloc, &shares) else {
            drop((query, params, own));
            return Err(NoMemory);
        };
        Ok(Mapped {
            query,
            params,
            last,
            own,
            shares,
            codes,
        })
    }

    // Whether the changes may touch what finding the shares looked up: `false` only where they do
    // not. Of many shares it is told by the codes, so that none is looked at.
    fn may_touch_shares(
        &self,
        alloc: Global,
        seed: &Seed,
        changes: &[Change],
    ) -> Result<bool, NoMemory>
        requires { AreListed seed.now self.now.own (shares_looked self.now.shares.items)
            self.now.codes.items }
        ensures { IfOk result (λ b. b ≡ false
            → touched (shares_looked self.now.shares.items) (edits changes.now) ≡ false) }
    {
        if self.shares.len() < MANY_SHARES {
            return Ok(true);
        }
        match self.codes.split_first() {
            Some((_own, behind)) => may_touch(alloc, seed, behind, changes),
            None => Ok(true),
        }
    }

    // Whether the changes, whose ids have these marks, touch one of its keys. The shares are looked
    // at where they may be touched.
    fn touched(&self, asked: bool, id_marks: &[u64], changes: &[Change]) -> bool
        requires changes { are_changes (edits changes.now) ≡ true }
        requires marks { id_marks.now ≡ marks changes.now }
        requires asked { asked ≡ false
            → touched (shares_looked self.now.shares.items) (edits changes.now) ≡ false }
        ensures { result ≡ touched (mapped_keys self.now) (edits changes.now) }
    {
        is_touched(&self.own, changes) || asked && shares_touched(&self.shares, id_marks, changes)
    }

    // Brings the shares to the dataset after the changes, whose ids have these marks: which of them
    // are not as they were.
    fn follow<V: View<L>, L: Ledger>(
        &mut self,
        alloc: Global,
        seed: &Seed,
        view: &V,
        id_marks: &[u64],
        changes: &[Change],
        asked: bool,
        steps: &mut Steps<L>,
    ) -> Result<Moved, NoMemory>
        requires mapped { is_mapped (expression_of self.old.query) ≡ true }
        requires changes { are_changes (edits changes.now) ≡ true }
        requires marks { id_marks.now ≡ marks changes.now }
        requires asked { asked ≡ false
            → touched (shares_looked self.old.shares.items) (edits changes.now) ≡ false }
        requires led { LeadTo (V.docs view.now) (edits changes.now) }
        requires ascending { ascending (share_docs self.old.shares.items) ≡ true }
        requires shares { AreShares (before_changes (V.docs view.now) (edits changes.now))
            (expression_of self.old.query) (fields self.old.params) self.old.shares.items }
        ensures follow { OnOk result (SharesFollow (V.docs view.now) (edits changes.now)
            (expression_of self.old.query) (fields self.old.params) self.old.shares.items
            self.new.shares.items) }
        ensures but { IfOk result (λ moved. moved.shifted ≡ false
            → SameBut moved.anew.items (share_values self.old.shares.items)
            (share_values self.new.shares.items)) }
        ensures same { IfOk result (λ moved. moved.shifted ≡ false → moved.anew.items ≡ []
            → self.new.shares.items ≡ self.old.shares.items) }
        ensures codes { IfOk result (λ moved. TellsCodes seed.now
            (shares_looked self.old.shares.items) (shares_looked self.new.shares.items) false
            moved.recoded) }
        ensures kept { KeepsAllButShares self.old self.new }
    {
        let mut recoded = false;
        let mut anew = renew_shares(
            alloc,
            seed,
            &self.query,
            &self.params,
            &mut self.shares,
            view,
            id_marks,
            changes,
            asked,
            &mut recoded,
            steps,
        )?;
        let shifted = follow_shares(
            alloc,
            seed,
            &self.query,
            &self.params,
            &mut self.shares,
            view,
            changes,
            &mut anew,
            &mut recoded,
            steps,
        )?;
        Ok(Moved {
            anew,
            shifted,
            recoded,
        })
    }

    // Makes the answer of the shares: whether it is another tree now. Where each share stands where
    // it stood, the values of those that were found anew alone are looked at.
    fn settle(&mut self, alloc: Global, moved: &Moved) -> Result<bool, NoMemory>
        requires { moved.now.shifted ≡ false → (ts : List Tree) → tree self.old.last ≡ list_of ts
            → SameBut moved.now.anew.items ts (share_values self.old.shares.items) }
        ensures settled { OnOk result
            (tree self.new.last ≡ list_of (share_values self.new.shares.items)) }
        ensures stale { IfOk result
            (λ b. b ≡ not (same_tree (tree self.new.last) (tree self.old.last))) }
        ensures kept { KeepsAllButLast self.old self.new }
    {
        if !moved.shifted {
            if let Val::List(list) = &mut self.last {
                return settle_places(alloc, list, &self.shares, &moved.anew);
            }
        }
        let answer = answer_of(alloc, &self.shares)?;
        let stale = !is_same(&answer, &self.last);
        self.last = answer;
        Ok(stale)
    }

    // Brings the number from the codes that are kept to those of the keys that it has now. Where
    // these have the codes that the keys before had, nothing is worked out.
    fn recode(
        &mut self,
        alloc: Global,
        number: u64,
        interest: &mut Interest,
        moved: &Moved,
    ) -> Result<(), NoMemory>
        ensures found { OnOk result ((m : Mapped) → m.codes ≡ self.old.codes
            → m.own ≡ self.old.own → TellsCodes interest.old.seed (shares_looked m.shares.items)
            (shares_looked self.old.shares.items) false moved.now.recoded
            → IsFound interest.old number (Kept.InShares m)
            → IsFound interest.new number (Kept.InShares self.new)) }
        ensures others { OnOk result (KeepsOthers number interest.old interest.new) }
        ensures kept { KeepsAllButCodes self.old self.new }
    {
        if !moved.recoded {
            return Ok(());
        }
        let codes = listed(alloc, interest.seed(), &self.own, &self.shares)?;
        if codes.as_slice() == self.codes.as_slice() {
            return Ok(());
        }
        interest.leave(number, &self.codes);
        interest.enter(number, &codes)?;
        self.codes = codes;
        Ok(())
    }

    /// Brings the answer to the dataset after the changes, and the number to the keys that finding
    /// it looks up now: whether it is another tree now. The shares of documents that changed are
    /// found anew, and those of which the changes touch what finding them looked up. Where no
    /// change touches a key, all stays as it is and nothing is asked of the view.
    pub(crate) fn refresh<V: View<L>, L: Ledger>(
        &mut self,
        alloc: Global,
        number: u64,
        interest: &mut Interest,
        view: &V,
        changes: &[Change],
        steps: &mut Steps<L>,
    ) -> Result<bool, NoMemory>
        requires changes { are_changes (edits changes.now) ≡ true }
        requires led { LeadTo (V.docs view.now) (edits changes.now) }
        requires fits { FitsShares (before_changes (V.docs view.now) (edits changes.now)) self.old }
        requires found { IsFound interest.old number (Kept.InShares self.old) }
        ensures refreshed { OnOk result (RefreshesKept (V.docs view.now) (edits changes.now)
            (Kept.InShares self.old) (Kept.InShares self.new)) }
        ensures stale { IfOk result
            (λ b. b ≡ not (same_tree (tree self.new.last) (tree self.old.last))) }
        ensures quiet { touched (mapped_keys self.old) (edits changes.now) ≡ false
            → steps.new ≡ steps.old }
        ensures found { OnOk result (IsFound interest.new number (Kept.InShares self.new)) }
        ensures others { OnOk result (KeepsOthers number interest.old interest.new) }
    {
        looked_settles_share();
        mapped_is_filtered();
        mapped_is_shares_of_hits();
        untouched_selects_the_same();
        changes_lead_back_and_on();
        filter_follows_changes();
        hits_have_key();
        let asked = self.may_touch_shares(alloc, interest.seed(), changes)?;
        let id_marks = marks_of(alloc, changes)?;
        if !self.touched(asked, &id_marks, changes) {
            return Ok(false);
        }
        let moved = self.follow(
            alloc,
            interest.seed(),
            view,
            &id_marks,
            changes,
            asked,
            steps,
        )?;
        if !moved.shifted && moved.anew.is_empty() {
            return Ok(false);
        }
        let stale = self.settle(alloc, &moved)?;
        self.recode(alloc, number, interest, &moved)?;
        Ok(stale)
    }
}
