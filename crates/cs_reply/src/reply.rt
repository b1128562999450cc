//! The replies to a line.
ghost use Rattle.std.specs.Prelude.{◌≡◌, OnOk};
ghost use Rattle.cs_json.specs.Nodes.{node_tree};
ghost use Rattle.cs_reply.specs.Reply.{operation_word, reply_tree, found, welcome, stopped, set};
ghost use Rattle.cs_reply.specs.View.{operation, reply, Appended};

use crate::committed::write_committed;
use crate::event::{Event, write_event};
use crate::found::write_found;
use crate::line::{member, number, text, write_line};
use crate::refusal::Refusal;
use cs_json::Node;
use cs_value::NoMemory;
use std::alloc::Global;

/// What became of a document.
#[derive(Clone, Copy, Debug, PartialEq, Eq)]
pub enum Operation {
    /// It was made.
    Create,
    /// It is another.
    Update,
    /// It is gone.
    Delete,
}

impl Operation {
    pub(crate) fn word(self) -> &'static str
        ensures { result.now ≡ operation_word (operation self) }
    {
        match self {
            Operation::Create => "create",
            Operation::Update => "update",
            Operation::Delete => "delete",
        }
    }
}

/// What became of one document in a transaction.
#[derive(Clone, Copy, Debug)]
pub struct Outcome<'a> {
    /// The id of the document.
    pub id: &'a str,
    /// What became of it.
    pub operation: Operation,
}

/// A reply to a line. The answer of a live query is written by [`crate::write_live`].
#[derive(Drop)]
pub enum Reply<'a> {
    /// A transaction was accepted: its id, and what became of each document that it changed, by
    /// ascending id.
    Committed {
        tx: &'a str,
        outcomes: &'a [Outcome<'a>],
    },
    /// What a query found.
    Found(Node<'a>),
    /// A listener of this name listens.
    Welcome(&'a str),
    /// What a listener hears of a change.
    Heard(Event<'a>),
    /// The live query or the listener of this name was stopped.
    Stopped(&'a str),
    /// The moment of the transactions that follow was set.
    Set(&'a str),
    /// The line is refused.
    Refused(Refusal<'a>),
}

fn write_welcome(alloc: Global, name: &str, line: u32, out: &mut Vec<u8>) -> Result<(), NoMemory>
    ensures { OnOk result (Appended out.old.items out.new.items
        (reply_tree line (welcome name.now))) }
{
    let members = vec![in alloc;
        member("line", number(line)),
        member("listener", text(name)),
        member("type", text("welcome")),
    ]?;
    write_line(alloc, members, out)
}

fn write_stopped(alloc: Global, name: &str, line: u32, out: &mut Vec<u8>) -> Result<(), NoMemory>
    ensures { OnOk result (Appended out.old.items out.new.items
        (reply_tree line (stopped name.now))) }
{
    let members = vec![in alloc; member("line", number(line)), member("stopped", text(name))]?;
    write_line(alloc, members, out)
}

fn write_set(alloc: Global, moment: &str, line: u32, out: &mut Vec<u8>) -> Result<(), NoMemory>
    ensures { OnOk result (Appended out.old.items out.new.items
        (reply_tree line (set moment.now))) }
{
    let members = vec![in alloc; member("at", text(moment)), member("line", number(line))]?;
    write_line(alloc, members, out)
}

impl Reply<'_> {
    /// Appends the reply to the line of the number: its compact text and a newline. After
    /// `NoMemory` a part of it may have been appended.
    pub fn write(self, alloc: Global, line: u32, out: &mut Vec<u8>) -> Result<(), NoMemory>
        ensures { OnOk result (Appended out.old.items out.new.items
            (reply_tree line (reply self.entry))) }
    {
        match self {
            Reply::Committed { tx, outcomes } => write_committed(alloc, tx, outcomes, line, out),
            Reply::Found(node) => write_found(alloc, &node, line, out),
            Reply::Welcome(name) => write_welcome(alloc, name, line, out),
            Reply::Heard(event) => write_event(alloc, event, line, out),
            Reply::Stopped(name) => write_stopped(alloc, name, line, out),
            Reply::Set(moment) => write_set(alloc, moment, line, out),
            Reply::Refused(refusal) => refusal.write(alloc, line, out),
        }
    }
}
