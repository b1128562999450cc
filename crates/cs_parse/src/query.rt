//! Queries from their texts.
ghost use Rattle.std.specs.Prelude.{◌≡◌, ◌<◌, ◌^◌, IfSome, length};
ghost use Rattle.cs_faults.specs.Found.{told};
ghost use Rattle.cs_parse.specs.Verdict.{IsRead, faulty, reading, reading_of, verdict};

use crate::fault::ParseFault;
use crate::laws::reading_is_verdict;
use crate::lexemes::lexemes;
use cs_faults::{Fault, first_fault};
use cs_grammar::read;
use cs_syntax::Query;
use cs_value::Txt;
use std::alloc::Global;

// The fault, with a name of its own.
fn owned(alloc: Global, fault: Fault<'_>) -> ParseFault
    ensures { IfSome (reading_of result) (λ r. r ≡ faulty (told fault.entry)) }
{
    match fault {
        Fault::Unsupported { name } => match Txt::copy_of(alloc, name) {
            Ok(name) => ParseFault::Unsupported { name },
            Err(_) => ParseFault::NoMemory,
        },
        Fault::UnknownFunction { name } => match Txt::copy_of(alloc, name) {
            Ok(name) => ParseFault::UnknownFunction { name },
            Err(_) => ParseFault::NoMemory,
        },
        Fault::Arity { name } => match Txt::copy_of(alloc, name) {
            Ok(name) => ParseFault::Arity { name },
            Err(_) => ParseFault::NoMemory,
        },
        Fault::NoKey => ParseFault::NoKey,
    }
}

// What `parse` answers, by what the text's reading is made of.
fn read_text(alloc: Global, text: &str) -> Result<Query, ParseFault>
    requires { length text.now < 2 ^ 32 }
    ensures { IfSome (reading result) (IsRead text.now) }
{
    let lexemes = lexemes(alloc, text)?;
    let expr = read(alloc, text, lexemes.as_slice())?;
    if let Some(fault) = first_fault(&expr) {
        return Err(owned(alloc, fault));
    }
    Ok(Query::of(Box::into_inner(expr)))
}

/// The query that the text is (GROQ-1.revision1 "Syntax", as this project's profile has it). The
/// text has fewer than 2^32 bytes. A text that is no query is refused with the first cause of
/// these: `BadToken` where a place begins no token, `TooDeep` where more than 48 brackets are open
/// at once, `Syntax` where the tokens spell no expression, and else the first fault in the order
/// of the text, with its name. The answer is the text's one reading, `verdict`. `NoMemory` comes
/// where the allocator has no room.
pub fn parse(alloc: Global, text: &str) -> Result<Query, ParseFault>
    requires { length text.now < 2 ^ 32 }
    ensures { IfSome (reading result) (λ r. verdict text.now ≡ r) }
{
    reading_is_verdict();
    read_text(alloc, text)
}
