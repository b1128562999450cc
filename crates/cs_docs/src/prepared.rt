//! Changes that the store takes, and why it takes none.
ghost use Rattle.std.specs.Prelude.{◌≡◌, true};
ghost use Rattle.cs_view.specs.Changes.{are_changes};
ghost use Rattle.cs_view.specs.View.{edits};

use cs_value::{NoMemory, Txt};
use cs_view::Change;

/// Changes after which a store's dataset is one that it can hold. Contracts see it as the changes.
#[derive(Drop)]
pub struct Prepared {
    pub(crate) changes: Vec<Change>,
    pub ghost ordered: { are_changes (edits changes.items) ≡ true },
}

/// Why a store takes no changes.
#[derive(Drop)]
pub enum PrepareFault {
    /// More documents than a store holds would stand.
    Full,
    /// A strong reference would name no document: of those the first, by the referrer's id and then
    /// in document order.
    Dangling {
        /// The id of the referrer.
        from: Txt,
        /// The id that no document would have.
        to: Txt,
    },
    /// The allocator had no room.
    NoMemory,
}

impl From<NoMemory> for PrepareFault {
    ghost use Rattle.std.specs.Prelude.{◌≡◌};
    ghost use Rattle.cs_docs.specs.declared.prepared.PrepareFault.TheVariants.{NoMemory};

    ghost from_gives = { λ _ e. e ≡ NoMemory };

    fn from(_refused: NoMemory) -> PrepareFault {
        PrepareFault::NoMemory
    }
}
