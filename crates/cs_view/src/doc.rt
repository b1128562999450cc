//! Documents.
ghost use Rattle.std.specs.Prelude.{◌≡◌, true, IfOk, option_map, MatchResult};
ghost use Rattle.cs_value.specs.View.{tree};
ghost use Rattle.cs_value.specs.Words.{text_at, is_object};
ghost use Rattle.cs_view.specs.Document.{is_document, is_body, has_id, has_type, has_text, id_of, rev_of};
ghost use Rattle.cs_view.specs.Made.{IsUnmade};

use cs_value::{NoMemory, Txt, Val, is_id};
use std::alloc::Global;
use std::rc::Rc;

/// How many levels of lists and objects a document may nest: this project's profile.
pub const DEEPEST_DOCUMENT: u32 = 48;

/// A document: an object of depth at most [`DEEPEST_DOCUMENT`] with an id as `_id`, a text of at
/// least one byte as `_type`, and texts as `_rev`, `_createdAt` and `_updatedAt`. A document does
/// not change, and its copies share its value. Contracts speak of it by its tree.
#[derive(Drop)]
pub struct Doc {
    val: Rc<Val, Global>,
    pub ghost is_document: { is_document (tree val.value) ≡ true },
}

/// Why no document was made of a value.
#[derive(Drop)]
pub enum DocFault {
    /// The value is no document. It comes back.
    NoDocument(Val),
    /// The allocator had no room.
    NoMemory,
}

fn text<'v>(val: &'v Val, name: &str) -> Option<&'v Txt>
    ensures { option_map (λ s. s.now) result ≡ text_at name.now (tree val.now) }
{
    match val.field(name) {
        Some(Val::Text(text)) => Some(text),
        _ => None,
    }
}

fn is_object(val: &Val) -> bool
    ensures { result ≡ is_object (tree val.now) }
{
    if let Val::Obj(_) = val { true } else { false }
}

fn has_id(val: &Val) -> bool
    ensures { result ≡ has_id (tree val.now) }
{
    if let Some(id) = text(val, "_id") {
        is_id(id.as_str())
    } else {
        false
    }
}

fn has_type(val: &Val) -> bool
    ensures { result ≡ has_type (tree val.now) }
{
    if let Some(name) = text(val, "_type") {
        name.as_str().len() > 0
    } else {
        false
    }
}

fn has_text(val: &Val, name: &str) -> bool
    ensures { result ≡ has_text name.now (tree val.now) }
{
    text(val, name).is_some()
}

/// Whether the value is an object with an id as `_id` and a text of at least one byte as `_type`:
/// what a client gives to be installed as a document.
pub fn is_body(val: &Val) -> bool
    ensures { result ≡ is_body (tree val.now) }
{
    is_object(val) && has_id(val) && has_type(val)
}

fn is_document(val: &Val) -> bool
    ensures { result ≡ is_document (tree val.now) }
{
    is_body(val)
        && val.within(DEEPEST_DOCUMENT)
        && has_text(val, "_rev")
        && has_text(val, "_createdAt")
        && has_text(val, "_updatedAt")
}

impl Doc {
    ghost use Rattle.cs_view.specs.View.{document_of};

    /// The document that the value is. `NoDocument` comes exactly where it is none, and has the
    /// value. `NoMemory` where the allocator has no room for what copies share.
    pub fn make(alloc: Global, val: Val) -> Result<Doc, DocFault>
        ensures { MatchResult result
            (λ d. (is_document (tree val) ≡ true) × (document_of d ≡ tree val))
            (IsUnmade (tree val)) }
    {
        if !is_document(&val) {
            return Err(DocFault::NoDocument(val));
        }
        match Doc::of(alloc, val) {
            Ok(doc) => Ok(doc),
            Err(NoMemory) => Err(DocFault::NoMemory),
        }
    }

    /// The document that the value is, where the caller knows that it is one. `NoMemory` where the
    /// allocator has no room for what copies share.
    pub fn of(alloc: Global, val: Val) -> Result<Doc, NoMemory>
        requires { is_document (tree val) ≡ true }
        ensures { IfOk result (λ d. document_of d ≡ tree val) }
    {
        match Rc::new(alloc, val) {
            Ok(val) => Ok(Doc { val }),
            Err(_) => Err(NoMemory),
        }
    }

    /// The document as a value.
    pub fn val(&self) -> &Val
        ensures { tree result.now ≡ document_of self.now }
    {
        self.val.as_ref()
    }

    /// Its `_id`.
    #[tactic(auto, using(crate::proofs::Documents::document_id))]
    pub fn id(&self) -> &Txt
        ensures { result.now ≡ id_of (document_of self.now) }
    {
        let Some(id) = text(self.val(), "_id") else {
            unreachable!()
        };
        id
    }

    /// Its `_rev`: the id of the transaction that wrote it last.
    #[tactic(auto, using(crate::proofs::Documents::document_rev))]
    pub fn rev(&self) -> &Txt
        ensures { result.now ≡ rev_of (document_of self.now) }
    {
        let Some(rev) = text(self.val(), "_rev") else {
            unreachable!()
        };
        rev
    }

    /// A copy of the document, which shares its value and takes no memory. `NoMemory` where more
    /// copies stand than can be counted.
    pub fn copy(&self) -> Result<Doc, NoMemory>
        ensures { IfOk result (λ d. document_of d ≡ document_of self.now) }
    {
        match self.val.clone() {
            Ok(val) => Ok(Doc { val }),
            Err(_) => Err(NoMemory),
        }
    }
}
