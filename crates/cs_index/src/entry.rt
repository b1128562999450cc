//! What an index holds.

/// An entry of an index: the document at this place has a key of this code.
#[derive(Clone, Copy, PartialEq, Eq, PartialOrd, Ord)]
pub struct Entry {
    pub(crate) code: u64,
    pub(crate) place: u32,
}
