//! The dataset that a transaction works on.
ghost use Rattle.std.specs.Prelude.{◌≡◌, true, false, option_map, OnOk, OnErr};
ghost use Rattle.cs_view.specs.Dataset.{standing, stands, with_doc, without};
ghost use Rattle.cs_view.specs.Document.{id_of};
ghost use Rattle.cs_view.specs.View.{document_of};
ghost use Rattle.cs_shelf.specs.View.{documents};
ghost use Rattle.cs_index.specs.View.{indexed};
ghost use Rattle.cs_working.specs.Noted.{AreNoted};

use cs_index::Indexed;
use cs_shelf::Shelf;
use cs_value::{NoMemory, Txt};
use cs_view::Doc;
use std::alloc::Global;
use std::collections::BTreeSet;

/// The dataset that a transaction works on: the store's documents, but under the touched ids those
/// put so far. Contracts see it as the dataset that stands now.
#[derive(Drop)]
pub struct Working<'d> {
    pub(crate) store: Indexed<'d>,
    pub(crate) put: Shelf,
    pub(crate) touched: BTreeSet<Txt>,
    pub(crate) alloc: Global,
    ghost noted: { AreNoted (documents put) touched },
}

// Puts a document in the place of its id. Where this is told to be new, none is sought there.
fn put_in(shelf: &mut Shelf, doc: Doc, new: bool) -> Result<(), NoMemory>
    requires { new ≡ true → stands (id_of (document_of doc)) (documents shelf.old) ≡ false }
    ensures put { OnOk result (documents shelf.new
        ≡ with_doc (document_of doc) (documents shelf.old)) }
    ensures kept { OnErr result (documents shelf.new ≡ documents shelf.old) }
{
    if !new && shelf.get(doc.id()).is_some() {
        shelf.replace(doc);
        Ok(())
    } else {
        shelf.add(doc)
    }
}

impl<'d> Working<'d> {
    ghost use Rattle.cs_working.specs.Working.{base, working};

    /// The store's dataset, with nothing done to it yet. It takes no memory.
    pub fn of(alloc: Global, store: Indexed<'d>) -> Working<'d>
        ensures store { base result ≡ indexed store.entry }
        ensures working { working result ≡ indexed store.entry }
    {
        Working {
            store,
            put: Shelf::new(alloc),
            touched: BTreeSet::new(alloc),
            alloc,
        }
    }

    // What the store holds under the id.
    pub(crate) fn stored(&self, id: &Txt) -> Option<&Doc>
        ensures { option_map (λ d. document_of d.now) result ≡ standing id.now (base self.now) }
    {
        self.store.docs().get(id)
    }

    /// The document with the id: `None` exactly where there is none.
    pub fn get(&self, id: &Txt) -> Option<&Doc>
        ensures { option_map (λ d. document_of d.now) result ≡ standing id.now (working self.now) }
    {
        if self.touched.contains(id) {
            self.put.get(id)
        } else {
            self.stored(id)
        }
    }

    /// Whether a document has the id.
    pub fn stands(&self, id: &Txt) -> bool
        ensures { result ≡ stands id.now (working self.now) }
    {
        self.get(id).is_some()
    }

    /// Puts a document in the place of its id. After `NoMemory` it is of no more use.
    pub fn put(&mut self, doc: Doc) -> Result<(), NoMemory>
        ensures store { base self.new ≡ base self.old }
        ensures put { OnOk result (working self.new
            ≡ with_doc (document_of doc) (working self.old)) }
    {
        let id = doc.id().copy(self.alloc)?;
        let new = self.touched.insert(id)?;
        put_in(&mut self.put, doc, new)
    }

    /// Takes out the document of the id, where one stands. After `NoMemory` it is of no more use.
    pub fn remove(&mut self, id: &Txt) -> Result<(), NoMemory>
        ensures store { base self.new ≡ base self.old }
        ensures removed { OnOk result (working self.new
            ≡ without id.now (working self.old)) }
    {
        let copy = id.copy(self.alloc)?;
        drop(self.touched.insert(copy)?);
        self.put.remove(id);
        Ok(())
    }
}
