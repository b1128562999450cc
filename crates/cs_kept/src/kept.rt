//! How a last answer is kept.
ghost use Rattle.std.specs.Prelude.{◌≡◌, ◌≤◌, ◌+◌, List, true, not, IfOk, OnOk};
ghost use Rattle.cs_value.specs.Same.{same_tree};
ghost use Rattle.cs_value.specs.Tree.{Tree};
ghost use Rattle.cs_value.specs.View.{tree, fields};
ghost use Rattle.cs_json.specs.Text.{json_text};
ghost use Rattle.cs_syntax.specs.Queries.{expression_of};
ghost use Rattle.cs_view.specs.Changes.{are_changes, LeadTo, before_changes};
ghost use Rattle.cs_view.specs.View.{edits};
ghost use Rattle.cs_plan.specs.Simple.{is_simple};
ghost use Rattle.cs_meaning.specs.Hits.{cost};
ghost use Rattle.cs_kept.specs.Kept.{last_of};
ghost use Rattle.cs_kept.specs.Fits.{Answers, FitsKept, IsQuiet, RefreshesKept};
ghost use Rattle.cs_kept.specs.Found.{IsCoded, IsFound, KeepsOthers, codes_of};

use crate::mapped::Mapped;
use crate::recorded::Recorded;
use crate::rows::Rows;
use cs_codes::Seed;
use cs_eval::mapped;
use cs_hits::text_of;
use cs_interest::Interest;
use cs_json::write;
use cs_plan::simple;
use cs_syntax::Query;
use cs_value::{Fields, NoMemory, Steps, Val};
use cs_view::{Change, View};
use std::alloc::Global;
use std::sync::ledger::Ledger;

/// How a last answer is kept.
#[derive(Drop)]
pub enum Kept {
    /// With the keys that finding it looked up: it is found anew after changes that touch one.
    ByRecord(Recorded),
    /// With the documents behind it, of a simple query.
    InRows(Rows),
    /// With the share of each hit in it, of a mapped query: those that changes touch are found
    /// anew.
    InShares(Mapped),
}

impl Kept {
    /// The value of the query over the view, kept in rows where the query is simple, in shares
    /// where it is mapped, and by its record otherwise. For a simple query no more documents are
    /// visited than have its key. `NoMemory` where the allocator has no room for it.
    pub fn make<V: View<L>, L: Ledger>(
        alloc: Global,
        seed: &Seed,
        query: Query,
        params: Fields,
        view: &V,
        steps: &mut Steps<L>,
    ) -> Result<Kept, NoMemory>
        ensures answers { IfOk result (λ kept. Answers (V.docs view.now) (expression_of query)
            (fields params) kept) }
        ensures coded { IfOk result (λ kept. IsCoded seed.now kept) }
        ensures visits { is_simple (expression_of query) ≡ true
            → steps.new ≤ steps.old + cost (expression_of query) (fields params) (V.docs view.now) }
    {
        if simple(&query) {
            return Ok(Kept::InRows(Rows::build(alloc, seed, query, params, view, steps)?));
        }
        // A query is dropped by name: left to the compiler, its whole drop would stand, and be
        // proved, at each place.
        let Ok(is_mapped) = mapped(alloc, &query) else {
            drop((query, params));
            return Err(NoMemory);
        };
        if is_mapped {
            return Ok(Kept::InShares(Mapped::build(alloc, seed, query, params, view, steps)?));
        }
        Ok(Kept::ByRecord(Recorded::build(alloc, seed, query, params, view, steps)?))
    }

    /// The last answer.
    pub fn last(&self) -> &Val
        ensures { tree result.now ≡ last_of self.now }
    {
        match self {
            Kept::ByRecord(kept) => &kept.last,
            Kept::InRows(kept) => &kept.answer,
            Kept::InShares(kept) => &kept.last,
        }
    }

    /// The compact text of the last answer, where it fits a dataset. That of a mapped query is put
    /// together from the texts of its shares. `NoMemory` where the allocator has no room for it.
    pub fn text(&self, alloc: Global) -> Result<Vec<u8>, NoMemory>
        ensures { (docs : List Tree) → FitsKept docs self.now
            → IfOk result (λ b. b.items ≡ json_text (last_of self.now)) }
    {
        match self {
            Kept::ByRecord(kept) => write(alloc, &kept.last),
            Kept::InRows(kept) => write(alloc, &kept.answer),
            Kept::InShares(kept) => text_of(alloc, &kept.shares),
        }
    }

    /// The codes under which interest in its keys is held.
    pub fn codes(&self) -> &[u64]
        ensures { result.now ≡ codes_of self.now }
    {
        match self {
            Kept::ByRecord(kept) => &kept.keys.codes,
            Kept::InRows(kept) => &kept.codes,
            Kept::InShares(kept) => &kept.codes,
        }
    }

    /// Brings the answer to the dataset after the changes, and the number to the keys that it has
    /// now: whether it is another tree now. After `NoMemory` it is of no more use.
    pub fn refresh<V: View<L>, L: Ledger>(
        &mut self,
        alloc: Global,
        number: u64,
        interest: &mut Interest,
        view: &V,
        changes: &[Change],
        steps: &mut Steps<L>,
    ) -> Result<bool, NoMemory>
        requires changes { are_changes (edits changes.now) ≡ true }
        requires led { LeadTo (V.docs view.now) (edits changes.now) }
        requires fits { FitsKept (before_changes (V.docs view.now) (edits changes.now)) self.old }
        requires found { IsFound interest.old number self.old }
        ensures refreshed { OnOk result
            (RefreshesKept (V.docs view.now) (edits changes.now) self.old self.new) }
        ensures stale { IfOk result
            (λ b. b ≡ not (same_tree (last_of self.new) (last_of self.old))) }
        ensures quiet { IsQuiet (edits changes.now) self.old → steps.new ≡ steps.old }
        ensures found { OnOk result (IsFound interest.new number self.new) }
        ensures others { OnOk result (KeepsOthers number interest.old interest.new) }
    {
        match self {
            Kept::ByRecord(kept) => kept.refresh(alloc, number, interest, view, changes, steps),
            Kept::InRows(kept) => {
                let stale = kept.refresh(alloc, view, changes)?;
                Ok(stale)
            }
            Kept::InShares(kept) => kept.refresh(alloc, number, interest, view, changes, steps),
        }
    }
}
