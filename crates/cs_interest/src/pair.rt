//! What keys of interest are held as.

/// The number is interested in a key of this code.
#[derive(Clone, Copy, PartialEq, Eq, PartialOrd, Ord)]
pub struct Pair {
    pub(crate) code: u64,
    pub(crate) number: u64,
}
