//! The index of a store.
ghost use Rattle.std.specs.Prelude.{◌≡◌, IfOk, IfSome, OnOk};
ghost use Rattle.cs_docs.specs.declared.docs.Docs.{Docs};
ghost use Rattle.cs_view.specs.View.{edits};
ghost use Rattle.cs_index.specs.Index.{IsIndexOf, IsDelta, AreApplied, FollowsChanges, ArePlacesOf};

use crate::build::list_all;
use crate::delta::{Delta, delta_of};
use crate::entry::Entry;
use crate::narrow::{id_among, rarest};
use crate::pick::{place_of_id, places_among};
use crate::put::{enter_changes, put_ascending, put_in, take_out};
use cs_codes::{Coding, KeyKind, Seed};
use cs_docs::Docs;
use cs_value::NoMemory;
use cs_view::{Change, Key};
use std::alloc::Global;
use std::collections::BTreeSet;
use std::hash::RandomState;

/// The places of a store's documents by the codes of their keys. It keeps the keys of the kinds
/// that it was asked to keep, each of which is the scalars at an attribute path of at most four
/// names, the scalar elements of the lists at such a path, or the references: for each of them the
/// code and the place alone. The codes depend on its seed, which those who choose the documents
/// don't know; no answer does.
#[derive(Drop)]
pub struct Index {
    pub(crate) entries: BTreeSet<Entry>,
    pub(crate) coding: Coding,
    pub(crate) alloc: Global,
}

// No more kinds are kept, so that what a change costs doesn't follow how many paths were ever asked
// for. Documents are found by other keys without the index.
const MOST_KINDS: usize = 64;

// Up to so many entries under a key it is worth to go by them: to test each document in turn costs
// less than to find one in four by an entry and to bring what is found in order.
fn worth(docs: &Docs) -> usize {
    (docs.len() as usize / 4).max(16)
}

// The coding of one kind, and of those of another coding before it.
fn joined(others: Option<Coding>, one: Coding) -> Result<Coding, NoMemory>
    requires { IfSome others (λ before. before.seed ≡ one.seed) }
    ensures { IfOk result (λ all. all.seed ≡ one.seed) }
{
    match others {
        Some(before) => {
            let mut all = before;
            all.append(one)?;
            Ok(all)
        }
        None => Ok(one),
    }
}

impl Index {
    /// The index of the documents of a store, which keeps the keys of these kinds. `NoMemory` where
    /// the allocator has no room for it.
    pub fn build(
        alloc: Global,
        seed: RandomState,
        docs: &Docs,
        kinds: Vec<KeyKind>,
    ) -> Result<Index, NoMemory>
        ensures { IfOk result (λ index. IsIndexOf index docs.now) }
    {
        let mut index = Index::new(alloc, seed);
        index.keep(docs, kinds)?;
        Ok(index)
    }

    /// An index that keeps no keys, and so is that of any store. It takes no memory.
    pub fn new(alloc: Global, seed: RandomState) -> Index
        ensures { (docs : Docs) → IsIndexOf result docs }
    {
        Index {
            entries: BTreeSet::new(alloc),
            coding: Coding::new(alloc, Seed::new(&seed)),
            alloc,
        }
    }

    /// Keeps the keys of these kinds too. A kind that is kept already costs nothing, and for all
    /// others there is one walk over the documents; no more than 64 are kept. It is the index of
    /// the store also after `NoMemory`, which comes where the allocator has no room.
    pub fn keep(&mut self, docs: &Docs, kinds: Vec<KeyKind>) -> Result<(), NoMemory>
        requires { IsIndexOf self.old docs.now }
        ensures { IsIndexOf self.new docs.now }
    {
        match self.coding_of_others(kinds)? {
            Some(others) => self.keep_others(docs, others),
            None => Ok(()),
        }
    }

    // The coding of those of the kinds that are not kept yet, if there are any. Nothing but time
    // hangs on which they are.
    fn coding_of_others(&self, kinds: Vec<KeyKind>) -> Result<Option<Coding>, NoMemory>
        ensures { IfOk result (λ o. IfSome o (λ others. others.seed ≡ self.now.coding.seed)) }
    {
        let mut others: Option<Coding> = None;
        for kind in kinds {
            if !self.coding.has(&kind) && self.has_room(&others, &kind) {
                let one = self.coding.of_one(self.alloc, kind)?;
                others = Some(joined(others, one)?);
            }
        }
        Ok(others)
    }

    // Whether the kind is none of the others, and they are few enough for one more. Nothing but
    // time hangs on the answer.
    fn has_room(&self, others: &Option<Coding>, kind: &KeyKind) -> bool {
        let kept = self.coding.len();
        match others {
            Some(others) => !others.has(kind) && kept.saturating_add(others.len()) < MOST_KINDS,
            None => kept < MOST_KINDS,
        }
    }

    // Keeps the keys of the kinds that another coding has too.
    fn keep_others(&mut self, docs: &Docs, others: Coding) -> Result<(), NoMemory>
        requires seed { others.seed ≡ self.old.coding.seed }
        requires was { IsIndexOf self.old docs.now }
        ensures { IsIndexOf self.new docs.now }
    {
        let listed = list_all(self.alloc, &others, docs)?;
        let ascending = listed.into_ascending(self.alloc)?;
        put_ascending(self.alloc, &mut self.entries, ascending)?;
        self.coding.append(others)?;
        Ok(())
    }

    /// What changes of a store do to the entries of the documents that stand before them: those of
    /// codes that a document has before and not after are lost, and those of codes that it has
    /// after and not before are gained. It is asked for before the changes are installed: the
    /// entries name places, and what stands in both stores keeps its place. `NoMemory` where the
    /// allocator has no room for them.
    pub fn delta(&self, docs: &Docs, changes: &[Change]) -> Result<Delta, NoMemory>
        ensures { IfOk result (IsDelta self.now docs.now (edits changes.now)) }
    {
        delta_of(self.alloc, &self.coding, docs, changes)
    }

    /// Takes the index of a store to that of the store in which the changes were installed. An
    /// entry that both sides of a change have is not touched. After `NoMemory` it must not be used.
    pub fn apply(&mut self, docs: &Docs, delta: Delta, changes: &[Change]) -> Result<(), NoMemory>
        ensures entries { OnOk result (AreApplied self.old self.new docs.now
            (edits changes.now) delta) }
        ensures follows { OnOk result (FollowsChanges self.old self.new docs.now
            (edits changes.now) delta) }
    {
        let Delta { lost, gained } = delta;
        take_out(&mut self.entries, lost);
        put_in(&mut self.entries, gained)?;
        enter_changes(self.alloc, &self.coding, &mut self.entries, docs, changes)?;
        Ok(())
    }

    /// The places of the documents that have each of the keys, in the order of their ids. Of the
    /// documents that the index names under one of the keys each is tested: under an id if there is
    /// one, else under a key of few documents. Where it keeps none of the keys, or more than 16
    /// stand under each that it keeps, and more than a quarter of all, every document is tested.
    /// `NoMemory` where the allocator has no room for them.
    pub fn select_all(&self, alloc: Global, keys: &[Key], docs: &Docs) -> Result<Vec<u32>, NoMemory>
        requires { IsIndexOf self.now docs.now }
        ensures { IfOk result (λ places. ArePlacesOf keys.now docs.now places.items) }
    {
        if let Some(id) = id_among(keys) {
            return place_of_id(alloc, id, keys, docs);
        }
        match rarest(alloc, &self.coding, &self.entries, keys, worth(docs))? {
            Some(places) => places_among(alloc, &places, keys, docs),
            None => {
                let places = docs.select_all(alloc, keys)?;
                Ok(places)
            }
        }
    }
}
