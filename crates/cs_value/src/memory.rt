//! Refusals that many calls share.
use std::alloc::{AllocError, AllocFailed};

/// A growth was refused: the allocator had no memory to give.
#[derive(Clone, Copy, Debug, Drop, PartialEq, Eq)]
pub struct NoMemory;

impl From<AllocError> for NoMemory {
    fn from(_refused: AllocError) -> NoMemory {
        NoMemory
    }
}

impl<T: Drop> From<AllocFailed<T>> for NoMemory {
    fn from(_refused: AllocFailed<T>) -> NoMemory {
        NoMemory
    }
}

/// A list of named things has none of the name.
#[derive(Clone, Copy, Debug, Drop, PartialEq, Eq)]
pub struct NoName;
