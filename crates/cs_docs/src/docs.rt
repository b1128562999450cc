//! The documents of the store.
ghost use Rattle.std.specs.Prelude.{◌≡◌, ◌≤◌, ◌<◌, All, length, [], true, false, option_map, map, Some, IsSome, IfSome, IfOk, OnOk, OnErr};
ghost use Rattle.cs_view.specs.Dataset.{standing, stands, with_doc};
ghost use Rattle.cs_view.specs.Document.{id_of};
ghost use Rattle.cs_view.specs.Keys.{selected};
ghost use Rattle.cs_view.specs.View.{document_of};
ghost use Rattle.cs_shelf.specs.Places.{most_places};
ghost use Rattle.cs_shelf.specs.View.{documents};
ghost use Rattle.cs_docs.specs.Limits.{most_documents};
ghost use Rattle.cs_docs.specs.References.{clean};

use cs_shelf::Shelf;
use cs_value::{NoMemory, Txt};
use cs_view::{Doc, Key};
use std::alloc::Global;

/// The most documents that the store holds: this project's profile.
pub const MOST_DOCUMENTS: usize = 1_048_576;

/// The documents of the store: at most [`MOST_DOCUMENTS`], and each strong reference in one names
/// one of them. Each stands at a place, which it keeps while it stands. Contracts speak of them by
/// the list of their trees, in ascending order of the bytes of their ids.
#[derive(Drop)]
pub struct Docs {
    pub(crate) shelf: Shelf,
    pub ghost clean: { clean (documents shelf) ≡ true },
    pub ghost within: { length (documents shelf) ≤ most_documents },
}

impl Docs {
    ghost use Rattle.cs_docs.specs.Store.{docs, doc_at, place_at};

    /// No documents. It takes no memory.
    pub fn new(alloc: Global) -> Docs
        ensures { docs result ≡ [] }
    {
        Docs {
            shelf: Shelf::new(alloc),
        }
    }

    /// How many documents there are.
    pub fn len(&self) -> u32
        ensures { result ≡ length (docs self.now) }
    {
        self.shelf.count() as u32
    }

    /// The place of the document with the id, which it keeps while it stands. `None` exactly where
    /// there is none.
    pub fn place(&self, id: &Txt) -> Option<u32>
        ensures place { result ≡ place_at self.now id.now }
        ensures found { option_map (doc_at self.now) result
            ≡ option_map Some (standing id.now (docs self.now)) }
        ensures low { IfSome result (λ p. p < most_places) }
    {
        self.shelf.place(id)
    }

    /// What stands at a place, if a document does.
    pub fn found(&self, place: u32) -> Option<&Doc>
        ensures { option_map (λ d. document_of d.now) result ≡ doc_at self.now place }
    {
        self.shelf.found(place)
    }

    /// The places of all documents, in the order of their ids. `NoMemory` where the allocator has
    /// no room for them.
    pub fn places(&self, alloc: Global) -> Result<Vec<u32>, NoMemory>
        ensures { IfOk result
            (λ places. map (doc_at self.now) places.items ≡ map Some (docs self.now)) }
    {
        self.shelf.places(alloc)
    }

    /// The places of the documents that have each of the keys, in the order of their ids. Each
    /// document is tested. `NoMemory` where the allocator has no room for them.
    pub fn select_all(&self, alloc: Global, keys: &[Key]) -> Result<Vec<u32>, NoMemory>
        ensures selected { IfOk result
            (λ places. map (doc_at self.now) places.items
            ≡ map Some (selected keys.now (docs self.now))) }
        ensures low { IfOk result (λ places. All (λ p. p < most_places) places.items) }
    {
        self.shelf.select_all(alloc, keys)
    }

    /// The document at a place where one stands.
    pub fn at(&self, place: u32) -> &Doc
        requires { IsSome (doc_at self.now place) }
        ensures { doc_at self.now place ≡ Some (document_of result.now) }
    {
        self.shelf.at(place)
    }

    /// The document with the id. `None` exactly where there is none.
    pub fn get(&self, id: &Txt) -> Option<&Doc>
        ensures { option_map (λ d. document_of d.now) result ≡ standing id.now (docs self.now) }
    {
        self.shelf.get(id)
    }

    /// Puts a document of a new id, where there is room for it and no strong reference dangles
    /// afterwards. It is moved, not copied. `NoMemory` where the allocator has none; nothing
    /// changes then.
    pub fn add(&mut self, document: Doc) -> Result<(), NoMemory>
        requires fresh { stands (id_of (document_of document)) (docs self.old) ≡ false }
        requires room { length (docs self.old) < most_documents }
        requires clean { clean (with_doc (document_of document) (docs self.old)) ≡ true }
        ensures put { OnOk result (docs self.new
            ≡ with_doc (document_of document) (docs self.old)) }
        ensures kept { OnErr result (docs self.new ≡ docs self.old) }
    {
        self.shelf.add(document)
    }
}
