//! Why a transaction is refused.
use cs_parse::ParseFault;
use cs_value::{NoMemory, Txt};

/// Why a transaction is refused.
#[derive(Drop)]
pub enum Why {
    /// A document of the id stands already.
    Exists {
        /// The id.
        id: Txt,
    },
    /// No document of the id stands.
    Missing {
        /// The id.
        id: Txt,
    },
    /// The document has another revision than the expected one.
    Revision {
        /// Its id.
        id: Txt,
        /// The expected revision.
        expected: Txt,
        /// The revision that it has.
        found: Txt,
    },
    /// A value is no object with an id and a type.
    BadDocument,
    /// A document would nest more levels than one may.
    DeepDocument,
    /// A patch would change an attribute that only the store writes.
    Immutable {
        /// The id of the document.
        id: Txt,
        /// The attribute.
        name: Txt,
    },
    /// A text is no path.
    BadPath {
        /// The text.
        path: Txt,
        /// The place of its fault.
        at: u32,
    },
    /// A path leads to something else than a number.
    NotNumber {
        /// The id of the document.
        id: Txt,
        /// The path.
        path: Txt,
    },
    /// A number would leave the range of numbers.
    Overflow {
        /// The id of the document.
        id: Txt,
        /// The path.
        path: Txt,
    },
    /// A path leads to something else than an array.
    NotArray {
        /// The id of the document.
        id: Txt,
        /// The path.
        path: Txt,
    },
    /// The value of a query names something else than documents.
    NotDocuments,
    /// A patch has `diffMatchPatch`.
    Diff,
    /// A text is no query. The fault is never want of memory.
    Query(ParseFault),
    /// More documents than the store holds would stand.
    FullDocuments,
    /// A strong reference would name no document: of those the first.
    Dangling {
        /// The id of the referrer.
        from: Txt,
        /// The id that no document would have.
        to: Txt,
    },
    /// The allocator had no room.
    NoMemory,
}

/// A refusal of a transaction.
#[derive(Drop)]
pub struct Refusal {
    /// The index of the mutation that is refused. `None` where no single one is.
    pub mutation: Option<u32>,
    /// Why.
    pub why: Why,
}

impl From<NoMemory> for Why {
    ghost use Rattle.std.specs.Prelude.{◌≡◌};
    ghost use Rattle.cs_txn.specs.declared.why.Why.TheVariants.{NoMemory};

    ghost from_gives = { λ _ e. e ≡ NoMemory };

    fn from(_refused: NoMemory) -> Why {
        Why::NoMemory
    }
}
