//! Whether the store takes changes.
ghost use Rattle.std.specs.Prelude.{◌≡◌, nat_lt, length, MatchResult};
ghost use Rattle.cs_view.specs.Changes.{LeadFrom};
ghost use Rattle.cs_view.specs.View.{edits};
ghost use Rattle.cs_docs.specs.Limits.{most_documents};
ghost use Rattle.cs_docs.specs.Verdict.{verdict, AreTaken};
ghost use Rattle.cs_docs.specs.Store.{docs, after, AreChanges, prepared};
ghost use Rattle.cs_docs.specs.Faults.{IsFault};

use crate::dangling::first_dangling;
use crate::docs::{Docs, MOST_DOCUMENTS};
use crate::prepared::{PrepareFault, Prepared};
use crate::referrers::Referrers;
use cs_view::Change;
use std::alloc::Global;

// Whether more documents stand after the changes than a store holds.
fn full_after(store: &Docs, changes: &[Change]) -> bool
    requires changes { AreChanges changes.now }
    requires leads { LeadFrom (docs store.now) (edits changes.now) }
    ensures { result ≡ nat_lt most_documents (length (after store.now changes.now)) }
{
    let mut stood: u64 = 0;
    let mut stand: u64 = 0;
    for change in changes {
        if change.before.is_some() {
            stood += 1;
        }
        if change.after.is_some() {
            stand += 1;
        }
    }
    stand > stood && stand - stood > (MOST_DOCUMENTS - store.len() as usize) as u64
}

impl Prepared {
    /// Prepares changes for a store. `Full` comes exactly where more documents than a store holds
    /// would stand after them, and `Dangling` exactly where not so many would and a strong
    /// reference would name none of them; it has the first such reference.
    pub fn make<R: Referrers>(
        alloc: Global,
        store: &Docs,
        referrers: &R,
        changes: Vec<Change>,
    ) -> Result<Prepared, PrepareFault>
        requires changes { AreChanges changes.items }
        requires leads { LeadFrom (docs store.now) (edits changes.items) }
        requires same { R.dataset referrers.now ≡ docs store.now }
        ensures { MatchResult result
            (λ p. (prepared p ≡ edits changes.items) × AreTaken (docs store.now) (prepared p))
            (λ e. IsFault e (verdict (after store.now changes.items))) }
    {
        if full_after(store, &changes) {
            return Err(PrepareFault::Full);
        }
        if let Some(found) = first_dangling(store, &changes, referrers) {
            let from = found.from.copy(alloc)?;
            let to = found.to.copy(alloc)?;
            return Err(PrepareFault::Dangling { from, to });
        }
        Ok(Prepared { changes })
    }

    /// The changes.
    pub fn changes(&self) -> &[Change]
        ensures { edits result.now ≡ prepared self.now }
    {
        self.changes.as_slice()
    }
}
