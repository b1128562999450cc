//! The documents of the store as a view, and as those who know who refers to an id.
ghost use Rattle.cs_docs.specs.Store.{docs as docs_of, doc_at as document_at};

use crate::docs::Docs;
use crate::referrers::Referrers;
use cs_value::{NoMemory, Steps, Txt};
use cs_view::{Doc, Key, View};
use std::alloc::Global;
use std::slice;
use std::sync::ledger::Ledger;

/// The documents at their places.
impl<L: Ledger> View<L> for Docs {
    ghost use Rattle.cs_docs.specs.Kept.{is_dataset_of};

    ghost docs = { docs_of };

    ghost doc_at = { document_at };

    ghost dataset = { is_dataset_of };

    fn len(&self) -> u32 {
        Docs::len(self)
    }

    #[tactic(auto, using(cs_view::proofs::Looking::selected_one))]
    fn select(&self, alloc: Global, key: &Key) -> Result<Vec<u32>, NoMemory> {
        Docs::select_all(self, alloc, slice::from_ref(key))
    }

    fn select_all(&self, alloc: Global, keys: &[Key]) -> Result<Vec<u32>, NoMemory> {
        Docs::select_all(self, alloc, keys)
    }

    fn at(&self, place: u32, steps: &mut Steps<L>) -> &Doc {
        steps.visit();
        Docs::at(self, place)
    }

    fn by_id(&self, id: &Txt) -> Option<u32> {
        Docs::place(self, id)
    }
}

/// It walks over the documents.
impl Referrers for Docs {
    ghost dataset = { docs_of };

    fn next_referrer(&self, target: &Txt, low: Option<&Txt>) -> Option<&Txt> {
        self.shelf.next_referrer(target, low)
    }
}
