//! A live query with its last answer, and what is said of it.
ghost use Rattle.std.specs.Prelude.{◌≡◌, ◌≤◌, ◌+◌, ◌++◌, List, true, map, IfOk, OnOk};
ghost use Rattle.cs_value.specs.Tree.{Tree};
ghost use Rattle.cs_value.specs.View.{fields};
ghost use Rattle.cs_syntax.specs.Queries.{expression_of};
ghost use Rattle.cs_view.specs.Changes.{are_changes, LeadTo, before_changes};
ghost use Rattle.cs_view.specs.View.{edits};
ghost use Rattle.cs_plan.specs.Simple.{is_simple};
ghost use Rattle.cs_meaning.specs.Hits.{cost};
ghost use Rattle.cs_live.specs.Entries.{live_query, said};
ghost use Rattle.cs_kept.specs.Fits.{IsQuiet};
ghost use Rattle.cs_live.specs.Fits.{FitsOne, Refreshes};
ghost use Rattle.cs_kept.specs.Found.{IsCoded, IsFound, KeepsOthers};
ghost use Rattle.cs_live.specs.Lives.{has_live_name, is_stale, made, news_of, say, worded};

use cs_codes::Seed;
use cs_interest::Interest;
use cs_kept::Kept;
use cs_syntax::Query;
use cs_value::{Fields, NoMemory, Steps, Txt};
use cs_view::{Change, View};
use std::alloc::Global;
use std::sync::ledger::Ledger;

/// A live query with its last answer, and its number among those that are interested in keys.
#[derive(Drop)]
pub(crate) struct Entry {
    pub(crate) name: Txt,
    pub(crate) kept: Kept,
    pub(crate) number: u64,
}

/// What is said of a live query: its name and its answer.
#[derive(Drop)]
pub struct LiveLine {
    /// The name of the live query.
    pub name: Txt,
    /// The compact text of its answer.
    pub answer: Vec<u8>,
}

impl Entry {
    /// The live query with its value over the view as its answer. The answer of a simple query is
    /// kept in rows, and then no more documents are visited than have the key of the query.
    pub(crate) fn make<V: View<L>, L: Ledger>(
        alloc: Global,
        name: Txt,
        number: u64,
        seed: &Seed,
        query: Query,
        params: Fields,
        view: &V,
        steps: &mut Steps<L>,
    ) -> Result<Entry, NoMemory>
        ensures made { IfOk result (λ e. live_query e
            ≡ made (V.docs view.now) name (expression_of query) (fields params)) }
        ensures fits { IfOk result (λ e. FitsOne (V.docs view.now) e) }
        ensures coded { IfOk result (λ e. IsCoded seed.now e.kept) }
        ensures number { IfOk result (λ e. e.number ≡ number) }
        ensures visits { is_simple (expression_of query) ≡ true
            → steps.new ≤ steps.old + cost (expression_of query) (fields params) (V.docs view.now) }
    {
        let kept = Kept::make(alloc, seed, query, params, view, steps)?;
        Ok(Entry { name, kept, number })
    }

    /// Whether the live query has the name.
    pub(crate) fn is_named(&self, name: &str) -> bool
        ensures { result ≡ has_live_name name.now (live_query self.now) }
    {
        name == self.name.as_str()
    }

    /// A copy of its name and the text of its answer, where it fits a dataset.
    pub(crate) fn line(&self, alloc: Global) -> Result<LiveLine, NoMemory>
        ensures { (docs : List Tree) → FitsOne docs self.now
            → IfOk result (λ line. said line ≡ worded (say (live_query self.now))) }
    {
        let name = self.name.copy(alloc)?;
        let answer = self.kept.text(alloc)?;
        Ok(LiveLine { name, answer })
    }

    // Brings the entry to the dataset after the changes: whether its answer is another tree now.
    fn refresh<V: View<L>, L: Ledger>(
        &mut self,
        alloc: Global,
        interest: &mut Interest,
        view: &V,
        changes: &[Change],
        steps: &mut Steps<L>,
    ) -> Result<bool, NoMemory>
        requires changes { are_changes (edits changes.now) ≡ true }
        requires led { LeadTo (V.docs view.now) (edits changes.now) }
        requires fits { FitsOne (before_changes (V.docs view.now) (edits changes.now)) self.old }
        requires found { IsFound interest.old self.old.number self.old.kept }
        ensures refreshed { OnOk result
            (Refreshes (V.docs view.now) (edits changes.now) self.old self.new) }
        ensures stale { IfOk result (λ b. b ≡ is_stale (V.docs view.now) (live_query self.old)) }
        ensures quiet { IsQuiet (edits changes.now) self.old.kept → steps.new ≡ steps.old }
        ensures found { OnOk result (IsFound interest.new self.new.number self.new.kept) }
        ensures others { OnOk result (KeepsOthers self.old.number interest.old interest.new) }
    {
        let number = self.number;
        let stale = self
            .kept
            .refresh(alloc, number, interest, view, changes, steps)?;
        Ok(stale)
    }

    /// Brings the entry to the dataset after the changes, and its number to the keys that it has
    /// now, and puts its line last where its answer is another tree now.
    pub(crate) fn refresh_into<V: View<L>, L: Ledger>(
        &mut self,
        alloc: Global,
        interest: &mut Interest,
        lines: &mut Vec<LiveLine>,
        view: &V,
        changes: &[Change],
        steps: &mut Steps<L>,
    ) -> Result<(), NoMemory>
        requires changes { are_changes (edits changes.now) ≡ true }
        requires led { LeadTo (V.docs view.now) (edits changes.now) }
        requires fits { FitsOne (before_changes (V.docs view.now) (edits changes.now)) self.old }
        requires found { IsFound interest.old self.old.number self.old.kept }
        ensures refreshed { OnOk result
            (Refreshes (V.docs view.now) (edits changes.now) self.old self.new) }
        ensures lines { OnOk result (map said lines.new.items ≡ map said lines.old.items
            ++ map worded (news_of (V.docs view.now) (live_query self.old))) }
        ensures quiet { IsQuiet (edits changes.now) self.old.kept → steps.new ≡ steps.old }
        ensures found { OnOk result (IsFound interest.new self.new.number self.new.kept) }
        ensures others { OnOk result (KeepsOthers self.old.number interest.old interest.new) }
    {
        if self.refresh(alloc, interest, view, changes, steps)? {
            lines.push(self.line(alloc)?)?;
        }
        Ok(())
    }
}
