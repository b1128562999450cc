//! Looking documents up.
ghost use Rattle.std.specs.Prelude.{◌≡◌, ◌<◌, ◌≤◌, length, [], true, Some, option_map, IsSome, IfSome};
ghost use Rattle.cs_view.specs.Dataset.{standing};
ghost use Rattle.cs_view.specs.View.{document_of};
ghost use Rattle.cs_shelf.specs.Places.{most_places};
ghost use Rattle.cs_shelf.specs.View.{documents, doc_at, place_at};

use crate::hints::{BLANK, Hints};
use crate::shelf::Shelf;
use cs_value::Txt;
use cs_view::Doc;
use slab::Slab;
use std::alloc::Global;
use std::collections::BTreeMap;

impl Shelf {
    /// No documents. It takes no memory.
    pub fn new(alloc: Global) -> Shelf
        ensures { documents result ≡ [] }
    {
        Shelf {
            store: Slab::new(alloc),
            order: BTreeMap::new(alloc),
            hints: Hints::new(alloc),
            alloc,
        }
    }

    /// The allocator that it takes its memory from.
    pub fn alloc(&self) -> Global {
        self.alloc
    }

    /// How many documents there are: at most one for each place.
    pub fn count(&self) -> usize
        ensures count { result ≡ length (documents self.now) }
        ensures few { result ≤ most_places }
    {
        self.order.len()
    }

    // Whether the document with the id stands at the place.
    fn is_at(&self, place: u32, id: &Txt) -> bool
        ensures { result ≡ true → Some place ≡ place_at self.now id.now }
    {
        match self.found(place) {
            Some(doc) => doc.id().as_str() == id.as_str(),
            None => false,
        }
    }

    // The place of the id, by a search where the hint does not tell.
    pub(crate) fn place_of(&self, id: &Txt) -> Option<u32>
        ensures { result ≡ place_at self.now id.now }
    {
        if let Some(hint) = self.hints.hint(id) {
            if hint == BLANK {
                return None;
            }
            if self.is_at(hint, id) {
                return Some(hint);
            }
        }
        self.order.get(id).copied()
    }

    /// The place of the document with the id, which it keeps while it stands: `None` exactly where
    /// there is none.
    #[tactic(auto, using(crate::proofs::Standing::place_of, crate::proofs::Few::low_place))]
    pub fn place(&self, id: &Txt) -> Option<u32>
        ensures place { result ≡ place_at self.now id.now }
        ensures found { option_map (doc_at self.now) result
            ≡ option_map Some (standing id.now (documents self.now)) }
        ensures low { IfSome result (λ p. p < most_places) }
    {
        self.place_of(id)
    }

    /// What stands at a place, if a document does.
    pub fn found(&self, place: u32) -> Option<&Doc>
        ensures { option_map (λ d. document_of d.now) result ≡ doc_at self.now place }
    {
        self.store.get(place as usize)
    }

    /// The document at a place where one stands.
    pub fn at(&self, place: u32) -> &Doc
        requires { IsSome (doc_at self.now place) }
        ensures { doc_at self.now place ≡ Some (document_of result.now) }
    {
        match self.store.get(place as usize) {
            Some(doc) => doc,
            None => unreachable!(),
        }
    }

    /// The document with the id: `None` exactly where there is none.
    pub fn get(&self, id: &Txt) -> Option<&Doc>
        ensures { option_map (λ d. document_of d.now) result
            ≡ standing id.now (documents self.now) }
    {
        match self.place(id) {
            Some(place) => Some(self.at(place)),
            None => None,
        }
    }
}
