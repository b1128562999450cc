//! The documents of a data file so far, in the order of their ids.
ghost use Rattle.std.specs.Prelude.{◌≡◌, ◌<◌, ◌≤◌, [], true, length, map, IfOk, IsTrue, OnErr, OnOk};
ghost use Rattle.cs_docs.specs.Limits.{most_documents};
ghost use Rattle.cs_view.specs.Dataset.{ascending, stands, with_doc};
ghost use Rattle.cs_view.specs.Document.{id_of};
ghost use Rattle.cs_view.specs.View.{document_of};
ghost use Rattle.cs_load.specs.Gathered.{gathered, AreById, IsGapFor};

use cs_value::{NoMemory, Txt};
use cs_view::Doc;
use std::alloc::Global;
use std::cmp::Ordering;
use std::collections::BTreeMap;
use std::mem;

/// Documents in the order of their ids.
#[derive(Drop)]
pub(super) enum Collected {
    /// They came in this order.
    InOrder(Vec<Doc>),
    /// They did not: each stands at its id.
    ById(BTreeMap<Txt, Doc>),
}

// Whether the id is above those of the documents, of which the last has the greatest.
fn is_above(id: &str, documents: &[Doc]) -> bool
    requires { ascending (map document_of documents.now) ≡ true }
    ensures { IsTrue result → IsGapFor id.now (map document_of documents.now)
        (length documents.now) }
{
    match documents.last() {
        Some(last) => matches!(id.cmp(last.id().as_str()), Ordering::Greater),
        None => true,
    }
}

// Puts the document in the place of its id: whether one stood there.
fn put_by_id(
    alloc: Global,
    documents: &mut BTreeMap<Txt, Doc>,
    document: Doc,
) -> Result<bool, NoMemory>
    requires by_id { AreById documents.old.entries }
    ensures by_id { AreById documents.new.entries }
    ensures stood { IfOk result (λ b. b ≡ stands (id_of (document_of document))
        (gathered documents.old.entries)) }
    ensures put { OnOk result (gathered documents.new.entries
        ≡ with_doc (document_of document) (gathered documents.old.entries)) }
    ensures kept { OnErr result (documents.new.entries ≡ documents.old.entries) }
{
    let id = document.id().copy(alloc)?;
    let before = documents.insert(id, document)?;
    Ok(before.is_some())
}

// The same documents, each at its id.
fn by_id(alloc: Global, documents: Vec<Doc>) -> Result<BTreeMap<Txt, Doc>, NoMemory>
    requires { ascending (map document_of documents.items) ≡ true }
    ensures by_id { IfOk result (λ m. AreById m.entries) }
    ensures same { IfOk result (λ m. gathered m.entries ≡ map document_of documents.items) }
{
    let mut sorted = BTreeMap::new(alloc);
    for document in documents {
        let _stood = put_by_id(alloc, &mut sorted, document)?;
    }
    Ok(sorted)
}

// The documents of a map, in its order.
fn in_order(alloc: Global, documents: BTreeMap<Txt, Doc>) -> Result<Vec<Doc>, NoMemory>
    ensures { IfOk result (λ v. map document_of v.items ≡ gathered documents.entries) }
{
    let mut docs = Vec::with_capacity(alloc, documents.len())?;
    for document in documents.into_values() {
        docs.push(document)?;
    }
    Ok(docs)
}

impl Collected {
    ghost use Rattle.cs_load.specs.Gathered.{held, IsKept, HasWay};

    /// No documents.
    pub(super) fn new(alloc: Global) -> Collected
        ensures none { held result ≡ [] }
        ensures kept { IsKept result }
    {
        Collected::InOrder(Vec::new(alloc))
    }

    /// How many there are.
    pub(super) fn len(&self) -> usize
        ensures { result ≡ length (held self.now) }
    {
        match self {
            Collected::InOrder(documents) => documents.len(),
            Collected::ById(documents) => documents.len(),
        }
    }

    /// Makes ready for a document with the id: where it is not above those that came in order, they
    /// go into a map.
    pub(super) fn make_way(&mut self, alloc: Global, id: &Txt) -> Result<(), NoMemory>
        requires { IsKept self.old }
        ensures kept { IsKept self.new }
        ensures same { OnOk result (held self.new ≡ held self.old) }
        ensures way { OnOk result (HasWay id.now self.new) }
    {
        let Collected::InOrder(documents) = self else {
            return Ok(());
        };
        if is_above(id.as_str(), documents.as_slice()) {
            return Ok(());
        }
        let documents = mem::replace(documents, Vec::new(alloc));
        *self = Collected::ById(by_id(alloc, documents)?);
        Ok(())
    }

    /// Whether a document has the id, for which way was made.
    pub(super) fn has(&self, id: &Txt) -> bool
        requires kept { IsKept self.now }
        requires way { HasWay id.now self.now }
        ensures { result ≡ stands id.now (held self.now) }
    {
        match self {
            Collected::InOrder(_) => false,
            Collected::ById(documents) => documents.contains_key(id),
        }
    }

    /// Puts a document in the place of its id, for which way was made: whether one stood there. To
    /// ask and to put takes one search so.
    pub(super) fn put(&mut self, alloc: Global, document: Doc) -> Result<bool, NoMemory>
        requires kept { IsKept self.old }
        requires way { HasWay (id_of (document_of document)) self.old }
        requires room { length (held self.old) < most_documents }
        ensures kept { IsKept self.new }
        ensures stood { IfOk result (λ b. b ≡ stands (id_of (document_of document))
            (held self.old)) }
        ensures put { OnOk result (held self.new
            ≡ with_doc (document_of document) (held self.old)) }
    {
        match self {
            Collected::InOrder(documents) => {
                documents.push(document)?;
                Ok(false)
            }
            Collected::ById(documents) => put_by_id(alloc, documents, document),
        }
    }

    /// The documents, moved and not copied.
    pub(super) fn into_docs(self, alloc: Global) -> Result<Vec<Doc>, NoMemory>
        requires { IsKept self }
        ensures these { IfOk result (λ documents. map document_of documents.items ≡ held self) }
        ensures ascends { IfOk result
            (λ documents. ascending (map document_of documents.items) ≡ true) }
        ensures within { IfOk result
            (λ documents. length (map document_of documents.items) ≤ most_documents) }
    {
        match self {
            Collected::InOrder(documents) => Ok(documents),
            Collected::ById(documents) => in_order(alloc, documents),
        }
    }
}
