//! Why a patch is refused.
use cs_value::{NoMemory, Txt};
use std::alloc::AllocFailed;

/// Why a patch refuses a document. What it tells of the patch and of the document is copied.
#[derive(Drop)]
pub enum PatchFault {
    /// The document has another revision than the one that is asked for.
    Revision {
        /// The revision that is asked for.
        expected: Txt,
        /// The revision that the document has.
        found: Txt,
    },
    /// What stands at a target of `inc` or `dec` is no number.
    NotNumber {
        /// The path, as it is written.
        path: Txt,
    },
    /// A number would be none of 64 bits after `inc` or `dec`.
    Overflow {
        /// The path, as it is written.
        path: Txt,
    },
    /// What items are to be put into is no list, or the path of `insert` does not end as such a
    /// path ends.
    NotArray {
        /// The path, as it is written.
        path: Txt,
    },
    /// A target is or lies in an attribute that only the store writes.
    Immutable {
        /// The name of the attribute.
        name: Txt,
    },
    /// The document would nest more than 48 levels of lists and objects.
    TooDeep,
    /// The allocator has no room.
    NoMemory,
}

impl From<NoMemory> for PatchFault {
    ghost use Rattle.std.specs.Prelude.{◌≡◌};
    ghost use Rattle.cs_patch.specs.declared.fault.PatchFault.TheVariants.{NoMemory};

    ghost from_gives = { λ _ e. e ≡ NoMemory };

    fn from(_refused: NoMemory) -> PatchFault {
        PatchFault::NoMemory
    }
}

/// Why the paths of a patch are none.
#[derive(Drop)]
pub enum PathsFault {
    /// A text is no path.
    BadPath {
        /// The text.
        path: Txt,
        /// The length in bytes of its longest prefix that some path begins with too.
        at: u32,
    },
    /// The allocator has no room.
    NoMemory,
}

impl From<NoMemory> for PathsFault {
    ghost use Rattle.std.specs.Prelude.{◌≡◌};
    ghost use Rattle.cs_patch.specs.declared.fault.PathsFault.TheVariants.{NoMemory};

    ghost from_gives = { λ _ e. e ≡ NoMemory };

    fn from(_refused: NoMemory) -> PathsFault {
        PathsFault::NoMemory
    }
}

impl<T: Drop> From<AllocFailed<T>> for PathsFault {
    ghost use Rattle.std.specs.Prelude.{◌≡◌};
    ghost use Rattle.cs_patch.specs.declared.fault.PathsFault.TheVariants.{NoMemory};

    ghost from_gives = { λ _ e. e ≡ NoMemory };

    fn from(_refused: AllocFailed<T>) -> PathsFault {
        PathsFault::NoMemory
    }
}
