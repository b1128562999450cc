//! The store of a data file's documents.
ghost use Rattle.std.specs.Prelude.{◌≡◌, [], true, map, IfOk, MatchResult, None, Some};
ghost use Rattle.cs_view.specs.Changes.{after_changes, LeadFrom, are_changes};
ghost use Rattle.cs_view.specs.Dataset.{ascending};
ghost use Rattle.cs_view.specs.Document.{id_of};
ghost use Rattle.cs_view.specs.View.{document_of, edit, edits};
ghost use Rattle.cs_docs.specs.Faults.{IsFault};
ghost use Rattle.cs_docs.specs.Gathered.{entering};
ghost use Rattle.cs_docs.specs.Store.{docs};
ghost use Rattle.cs_docs.specs.Verdict.{verdict, fits};

use crate::docs::Docs;
use crate::prepared::{PrepareFault, Prepared};
use cs_value::NoMemory;
use cs_view::{Change, Doc};
use std::alloc::Global;

// The change that puts the document where none stands.
fn entering_change(alloc: Global, document: Doc) -> Result<Change, NoMemory>
    ensures { IfOk result (λ c. edit c
        ≡ (id_of (document_of document), (None, Some (document_of document)))) }
{
    Ok(Change {
        id: document.id().copy(alloc)?,
        before: None,
        after: Some(document),
    })
}

// The changes that put the documents into the empty store.
fn entering(alloc: Global, documents: Vec<Doc>) -> Result<Vec<Change>, NoMemory>
    ensures { IfOk result (λ cs. edits cs.items ≡ entering (map document_of documents.items)) }
{
    let mut changes = Vec::with_capacity(alloc, documents.len())?;
    for document in documents {
        changes.push(entering_change(alloc, document)?)?;
    }
    Ok(changes)
}

// The changes that put documents of ascending ids into the empty store.
fn entering_all(alloc: Global, documents: Vec<Doc>) -> Result<Vec<Change>, NoMemory>
    requires { ascending (map document_of documents.items) ≡ true }
    ensures changes { IfOk result (λ cs. are_changes (edits cs.items) ≡ true) }
    ensures leads { IfOk result (λ cs. LeadFrom [] (edits cs.items)) }
    ensures after { IfOk result (λ cs. after_changes [] (edits cs.items)
        ≡ map document_of documents.items) }
{
    let changes = entering(alloc, documents)?;
    Ok(changes)
}

impl Docs {
    /// The store of these documents, whose ids ascend strictly, or why there is none: `Full`
    /// exactly where they are more than a store holds, and `Dangling` exactly where they are not
    /// and a strong reference names none of them; it has the first such reference. The documents
    /// are moved, and none is copied. `NoMemory` where the allocator has no room for their places.
    pub fn gathered(alloc: Global, documents: Vec<Doc>) -> Result<Docs, PrepareFault>
        requires { ascending (map document_of documents.items) ≡ true }
        ensures { MatchResult result
            (λ d. (docs d ≡ map document_of documents.items)
            × (verdict (map document_of documents.items) ≡ fits))
            (λ e. IsFault e (verdict (map document_of documents.items))) }
    {
        let changes = match entering_all(alloc, documents) {
            Ok(changes) => changes,
            Err(_) => return Err(PrepareFault::NoMemory),
        };
        let empty = Docs::new(alloc);
        let prepared = match Prepared::make(alloc, &empty, &empty, changes) {
            Ok(prepared) => prepared,
            Err(fault) => return Err(fault),
        };
        match Docs::of(alloc, prepared) {
            Ok(store) => Ok(store),
            Err(_) => Err(PrepareFault::NoMemory),
        }
    }
}
