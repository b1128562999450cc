//! Why a text is no query.
ghost use Rattle.std.specs.Prelude.{◌≡◌};
ghost use Rattle.cs_parse.specs.declared.fault.ParseFault.TheVariants.{NoMemory};

use cs_grammar::GrammarFault;
use cs_syntax::TokenFault;
use cs_value::Txt;
use std::alloc::{AllocError, AllocFailed};

/// Why a text is no query. A text has one of these causes at most, besides want of memory.
#[derive(Drop)]
pub enum ParseFault {
    /// No token begins at this place, and the text has not ended.
    BadToken {
        /// The place, in bytes.
        at: u32,
    },
    /// At some token more than 48 brackets are open.
    TooDeep,
    /// The tokens spell no expression.
    Syntax,
    /// The first fault is a form or function that the profile leaves out.
    Unsupported {
        /// The name of the form, or that of the function as it is written.
        name: Txt,
    },
    /// The first fault is a call of a function that there is not.
    UnknownFunction {
        /// The function's name as it is written.
        name: Txt,
    },
    /// The first fault is a call with a wrong number of arguments, or with `=>` where none may
    /// stand.
    Arity {
        /// The function's name as it is written.
        name: Txt,
    },
    /// The first fault is an entry of an object whose key is not determinable.
    NoKey,
    /// The allocator had no memory to give.
    NoMemory,
}

impl From<TokenFault> for ParseFault {
    ghost use Rattle.cs_parse.specs.Causes.{of_tokens};

    ghost from_gives = { λ f e. e ≡ of_tokens f };

    fn from(fault: TokenFault) -> ParseFault {
        match fault {
            TokenFault::BadToken { at } => ParseFault::BadToken { at },
            TokenFault::NoMemory => ParseFault::NoMemory,
        }
    }
}

impl From<GrammarFault> for ParseFault {
    ghost use Rattle.cs_parse.specs.Causes.{of_grammar};

    ghost from_gives = { λ f e. e ≡ of_grammar f };

    fn from(fault: GrammarFault) -> ParseFault {
        match fault {
            GrammarFault::Syntax => ParseFault::Syntax,
            GrammarFault::NoMemory => ParseFault::NoMemory,
        }
    }
}

impl From<AllocError> for ParseFault {
    ghost from_gives = { λ _ e. e ≡ NoMemory };

    fn from(_refused: AllocError) -> ParseFault {
        ParseFault::NoMemory
    }
}

impl<T: Drop> From<AllocFailed<T>> for ParseFault {
    ghost from_gives = { λ _ e. e ≡ NoMemory };

    fn from(_refused: AllocFailed<T>) -> ParseFault {
        ParseFault::NoMemory
    }
}
