//! JSON (RFC 8259) with whole numbers of 64 bits, read and written as serde_json does.
#![tactic(auto)]

mod convert;
mod de;
mod depth;
mod direct;
mod list;
mod node;
mod print;
mod ser;
mod text;

pub use de::{ValueReader, read};
pub use list::{HasText, write_list};
pub use node::{Member, Node};
pub use ser::{write, write_node};
use std::alloc::{AllocError, AllocFailed};
pub use text::write_text;

/// Why bytes are no value. Where several causes hold, the earlier one in this list is answered.
#[derive(Clone, Copy, Debug, Drop, PartialEq, Eq)]
pub enum JsonFault {
    /// serde_json has no reading of the bytes. Bytes that are no UTF-8 and nesting above 127 are
    /// among these.
    NotJson,
    /// Lists and objects of the value nest deeper than was asked for.
    TooDeep,
    /// A number of the value is no whole number from -2^63 to 2^63-1.
    NotWhole,
    /// The allocator had no memory to give.
    NoMemory,
}

impl From<AllocError> for JsonFault {
    ghost use Rattle.std.specs.Prelude.{◌≡◌};
    ghost use Rattle.cs_json.specs.declared.JsonFault.TheVariants.{NoMemory};

    ghost from_gives = { λ _ e. e ≡ NoMemory };

    fn from(_refused: AllocError) -> JsonFault {
        JsonFault::NoMemory
    }
}

impl<T: Drop> From<AllocFailed<T>> for JsonFault {
    ghost use Rattle.std.specs.Prelude.{◌≡◌};
    ghost use Rattle.cs_json.specs.declared.JsonFault.TheVariants.{NoMemory};

    ghost from_gives = { λ _ e. e ≡ NoMemory };

    fn from(_refused: AllocFailed<T>) -> JsonFault {
        JsonFault::NoMemory
    }
}

impl From<cs_value::NoMemory> for JsonFault {
    ghost use Rattle.std.specs.Prelude.{◌≡◌};
    ghost use Rattle.cs_json.specs.declared.JsonFault.TheVariants.{NoMemory};

    ghost from_gives = { λ _ e. e ≡ NoMemory };

    fn from(_refused: cs_value::NoMemory) -> JsonFault {
        JsonFault::NoMemory
    }
}
