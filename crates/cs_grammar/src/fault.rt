//! Why there is no expression.
ghost use Rattle.std.specs.Prelude.{◌≡◌};
ghost use Rattle.cs_grammar.specs.declared.fault.GrammarFault.TheVariants.{NoMemory};

use cs_value::NoMemory;
use std::alloc::{AllocError, AllocFailed};

/// Why tokens have no expression.
#[derive(Clone, Copy, Debug, Drop, PartialEq, Eq)]
pub enum GrammarFault {
    /// The tokens spell none.
    Syntax,
    /// The allocator had no memory to give.
    NoMemory,
}

impl From<NoMemory> for GrammarFault {
    ghost from_gives = { λ _ e. e ≡ NoMemory };

    fn from(_refused: NoMemory) -> GrammarFault {
        GrammarFault::NoMemory
    }
}

impl From<AllocError> for GrammarFault {
    ghost from_gives = { λ _ e. e ≡ NoMemory };

    fn from(_refused: AllocError) -> GrammarFault {
        GrammarFault::NoMemory
    }
}

impl<T: Drop> From<AllocFailed<T>> for GrammarFault {
    ghost from_gives = { λ _ e. e ≡ NoMemory };

    fn from(_refused: AllocFailed<T>) -> GrammarFault {
        GrammarFault::NoMemory
    }
}
