//! Why a text is no query.
ghost use Rattle.std.specs.Prelude.{◌≡◌, option_map, option_and_then};
ghost use Rattle.cs_parse.specs.Verdict.{reading_of};
ghost use Rattle.cs_reply.specs.View.{refusal as refusal_seen};
ghost use Rattle.cs_machine.specs.Causes.{why_none};

use cs_parse::ParseFault;
use cs_reply::Refusal;

/// Why a text is no query, as the reply to its line says it. `None` exactly for want of memory.
pub fn no_query(fault: &ParseFault) -> Option<Refusal<'_>>
    ensures { option_map refusal_seen result ≡ option_and_then why_none
        (reading_of fault.entry.now) }
{
    match fault {
        ParseFault::BadToken { at } => Some(Refusal::BadToken { at: *at }),
        ParseFault::TooDeep => Some(Refusal::DeepQuery),
        ParseFault::Syntax => Some(Refusal::Syntax),
        ParseFault::Unsupported { name } => Some(Refusal::Unsupported {
            name: name.as_str(),
        }),
        ParseFault::UnknownFunction { name } => Some(Refusal::UnknownFunction {
            name: name.as_str(),
        }),
        ParseFault::Arity { name } => Some(Refusal::Arity {
            name: name.as_str(),
        }),
        ParseFault::NoKey => Some(Refusal::NoKey),
        ParseFault::NoMemory => None,
    }
}
