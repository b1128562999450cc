//! The refusals of a line.
ghost use Rattle.std.specs.Prelude.{OnOk, ◌∷◌, [], codes};
ghost use Rattle.cs_value.specs.Tree.{text};
ghost use Rattle.cs_reply.specs.Fields.{object_of, number};
ghost use Rattle.cs_reply.specs.Reply.{reply_tree, refused};
ghost use Rattle.cs_reply.specs.View.{refusal, Appended};

use crate::line::{member, number, text, write_line};
use cs_value::NoMemory;
use std::alloc::Global;

/// Why a line is refused. The state stays as it was.
#[derive(Clone, Copy, Debug)]
pub enum Refusal<'a> {
    /// serde_json has no reading of the line.
    NotJson,
    /// Its lists and objects nest deeper than 64 levels.
    TooDeep,
    /// A number in it is no whole number from -2^63 to 2^63-1.
    NotWhole,
    /// It has not the keys and types of a command.
    BadCommand,
    /// No token of a query begins at this byte of its text.
    BadToken { at: u32 },
    /// More than 48 brackets of a query are open at once.
    DeepQuery,
    /// The tokens of a query spell no expression.
    Syntax,
    /// A query has something of GROQ, by this name, that is not supported.
    Unsupported { name: &'a str },
    /// A query calls a function of this name, which there is not.
    UnknownFunction { name: &'a str },
    /// A query calls the function of this name with another number of arguments than it takes.
    Arity { name: &'a str },
    /// A value in a projection of a query has no name of its own.
    NoKey,
    /// A query is none that can be listened to.
    NotListenable,
    /// A live query or a listener has the name.
    NameUsed { name: &'a str },
    /// As many live queries, or as many listeners, stand as may.
    FullSubscriptions { limit: u32 },
    /// No live query and no listener has the name.
    NoName { name: &'a str },
    /// A text is no moment.
    BadMoment,
    /// The id that is given for a transaction has not the form of one.
    BadTx,
    /// An accepted transaction has the id.
    TxUsed { id: &'a str },
}

fn plain(alloc: Global, word: &str, line: u32, out: &mut Vec<u8>) -> Result<(), NoMemory>
    ensures { OnOk result (Appended out.old.items out.new.items (object_of
        ((codes "line", number line) ∷ (codes "error", text word.now) ∷ []))) }
{
    let members = vec![in alloc; member("error", text(word)), member("line", number(line))]?;
    write_line(alloc, members, out)
}

fn bad_token(alloc: Global, at: u32, line: u32, out: &mut Vec<u8>) -> Result<(), NoMemory>
    ensures { OnOk result (Appended out.old.items out.new.items (object_of
        ((codes "line", number line) ∷ (codes "error", text (codes "bad-token"))
        ∷ (codes "at", number at) ∷ []))) }
{
    let members = vec![in alloc;
        member("at", number(at)),
        member("error", text("bad-token")),
        member("line", number(line)),
    ]?;
    write_line(alloc, members, out)
}

fn with_name(
    alloc: Global,
    word: &str,
    name: &str,
    line: u32,
    out: &mut Vec<u8>,
) -> Result<(), NoMemory>
    ensures { OnOk result (Appended out.old.items out.new.items (object_of
        ((codes "line", number line) ∷ (codes "error", text word.now)
        ∷ (codes "name", text name.now) ∷ []))) }
{
    let members = vec![in alloc;
        member("error", text(word)),
        member("line", number(line)),
        member("name", text(name)),
    ]?;
    write_line(alloc, members, out)
}

fn full_subscriptions(
    alloc: Global,
    limit: u32,
    line: u32,
    out: &mut Vec<u8>,
) -> Result<(), NoMemory>
    ensures { OnOk result (Appended out.old.items out.new.items (object_of
        ((codes "line", number line) ∷ (codes "error", text (codes "full-subscriptions"))
        ∷ (codes "limit", number limit) ∷ []))) }
{
    let members = vec![in alloc;
        member("error", text("full-subscriptions")),
        member("limit", number(limit)),
        member("line", number(line)),
    ]?;
    write_line(alloc, members, out)
}

fn tx_used(alloc: Global, id: &str, line: u32, out: &mut Vec<u8>) -> Result<(), NoMemory>
    ensures { OnOk result (Appended out.old.items out.new.items (object_of
        ((codes "line", number line) ∷ (codes "error", text (codes "tx-used"))
        ∷ (codes "id", text id.now) ∷ []))) }
{
    let members = vec![in alloc;
        member("error", text("tx-used")),
        member("id", text(id)),
        member("line", number(line)),
    ]?;
    write_line(alloc, members, out)
}

impl Refusal<'_> {
    /// Appends the reply to the line of the number. After `NoMemory` a part of it may have been
    /// appended.
    pub(crate) fn write(&self, alloc: Global, line: u32, out: &mut Vec<u8>) -> Result<(), NoMemory>
        ensures { OnOk result (Appended out.old.items out.new.items
            (reply_tree line (refused (refusal self.now)))) }
    {
        match *self {
            Refusal::NotJson => plain(alloc, "not-json", line, out),
            Refusal::TooDeep => plain(alloc, "too-deep", line, out),
            Refusal::NotWhole => plain(alloc, "not-whole", line, out),
            Refusal::BadCommand => plain(alloc, "bad-command", line, out),
            Refusal::BadToken { at } => bad_token(alloc, at, line, out),
            Refusal::DeepQuery => plain(alloc, "deep-query", line, out),
            Refusal::Syntax => plain(alloc, "syntax", line, out),
            Refusal::Unsupported { name } => with_name(alloc, "unsupported", name, line, out),
            Refusal::UnknownFunction { name } => with_name(
                alloc,
                "unknown-function",
                name,
                line,
                out,
            ),
            Refusal::Arity { name } => with_name(alloc, "arity", name, line, out),
            Refusal::NoKey => plain(alloc, "no-key", line, out),
            Refusal::NotListenable => plain(alloc, "not-listenable", line, out),
            Refusal::NameUsed { name } => with_name(alloc, "name-used", name, line, out),
            Refusal::FullSubscriptions { limit } => full_subscriptions(alloc, limit, line, out),
            Refusal::NoName { name } => with_name(alloc, "no-name", name, line, out),
            Refusal::BadMoment => plain(alloc, "bad-moment", line, out),
            Refusal::BadTx => plain(alloc, "bad-tx", line, out),
            Refusal::TxUsed { id } => tx_used(alloc, id, line, out),
        }
    }
}
