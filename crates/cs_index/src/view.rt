//! A store with its index as a view, and as those who know who refers to an id.
ghost use Rattle.std.specs.Prelude.{◌≡◌};
ghost use Rattle.cs_docs.specs.Kept.{is_dataset_of};
ghost use Rattle.cs_index.specs.Index.{IsIndexOf};
ghost use Rattle.cs_index.specs.View.{store_of, indexed, doc_at as document_at};

use crate::index::Index;
use crate::indexed::Indexed;
use crate::referrers::next_under;
use cs_docs::{Docs, Referrers};
use cs_value::{NoMemory, Steps, Txt};
use cs_view::{Doc, Key, View};
use std::alloc::Global;
use std::slice;
use std::sync::ledger::Ledger;

impl<'a> Indexed<'a> {
    /// A store with its index.
    pub fn of(docs: &'a Docs, index: &'a Index) -> Indexed<'a>
        requires { IsIndexOf index.now docs.now }
        ensures { store_of result ≡ docs.now }
    {
        Indexed { docs, index }
    }

    /// The store.
    pub fn docs(&self) -> &'a Docs
        ensures { result.now ≡ store_of self.now }
    {
        self.docs
    }
}

/// The documents of the store at their places. A look-up reads the documents that the index names.
impl<'a, L: Ledger> View<L> for Indexed<'a> {
    ghost docs = { indexed };

    ghost doc_at = { document_at };

    ghost dataset = { λ v. is_dataset_of (store_of v) };

    fn len(&self) -> u32 {
        self.docs.len()
    }

    #[tactic(auto, using(cs_view::proofs::Looking::selected_one))]
    fn select(&self, alloc: Global, key: &Key) -> Result<Vec<u32>, NoMemory> {
        let places = self
            .index
            .select_all(alloc, slice::from_ref(key), self.docs)?;
        Ok(places)
    }

    fn select_all(&self, alloc: Global, keys: &[Key]) -> Result<Vec<u32>, NoMemory> {
        let places = self.index.select_all(alloc, keys, self.docs)?;
        Ok(places)
    }

    fn at(&self, place: u32, steps: &mut Steps<L>) -> &Doc {
        steps.visit();
        self.docs.at(place)
    }

    fn by_id(&self, id: &Txt) -> Option<u32> {
        self.docs.place(id)
    }
}

/// It reads the documents that the index names under the reference, or all where the index keeps no
/// references, and takes no memory.
impl<'a> Referrers for Indexed<'a> {
    ghost dataset = { indexed };

    fn next_referrer(&self, target: &Txt, low: Option<&Txt>) -> Option<&Txt> {
        if !self.index.coding.codes_refs() {
            return self.docs.next_referrer(target, low);
        }
        let code = self.index.coding.ref_code(target);
        match next_under(&self.index.entries, code, self.docs, target, low) {
            Some(doc) => Some(doc.id()),
            None => None,
        }
    }
}
