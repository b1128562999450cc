//! A store with its index.
ghost use Rattle.cs_index.specs.Index.{IsIndexOf};

use crate::index::Index;
use cs_docs::Docs;

/// A store, and an index that is that of the store. Contracts see it as the store.
#[derive(Clone, Copy)]
pub struct Indexed<'a> {
    pub(crate) docs: &'a Docs,
    pub(crate) index: &'a Index,
    ghost fits: { IsIndexOf index.now docs.now },
}
