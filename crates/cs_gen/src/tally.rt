//! Replies counted by their kinds, and the summary that says the counts.
ghost use Rattle.std.specs.Prelude.{◌≡◌, ◌≤◌, ◌+◌, ◌^◌, ◌++◌, ◌∷◌, [], List, IfOk, OnOk, OnErr, map};
ghost use Rattle.cs_json.specs.Nodes.{member_pair};
ghost use Rattle.cs_reply.specs.Fields.{number};
ghost use Rattle.cs_reply.specs.Reply.{Reply};
ghost use Rattle.cs_gen.specs.Summary.{summary_line};
ghost use Rattle.cs_gen.specs.Tally.{IsBeyond, IsTally};

use cs_json::{Member, Node};
use cs_reply::write_line;
use cs_value::NoMemory;
use std::alloc::Global;

/// How many replies there are, in all and by their kinds.
#[derive(Clone, Copy, Debug, Drop, PartialEq, Eq)]
pub struct Tally {
    /// All of them.
    pub replies: u32,
    /// Those that tell a listener of a change.
    pub events: u32,
    /// The answers of live queries.
    pub live: u32,
    /// The refusals.
    pub refused: u32,
}

// The sum, where it has 32 bits.
fn sum(one: u32, other: u32) -> Result<u32, NoMemory>
    ensures sum { IfOk result (λ n. n ≡ one + other) }
    ensures cause { OnErr result (2 ^ 32 ≤ one + other) }
{
    one.checked_add(other).ok_or(NoMemory)
}

// Another attribute.
fn add<'a>(members: &mut Vec<Member<'a>>, name: &'a str, n: u32) -> Result<(), NoMemory>
    ensures { OnOk result (map member_pair members.new.items ≡ map member_pair members.old.items
        ++ (name.entry.now, number n) ∷ []) }
{
    let node = Node::Number(i64::from(n));
    members.push(Member { name, node })?;
    Ok(())
}

impl Tally {
    /// Of no reply.
    pub fn new() -> Tally
        ensures { IsTally result [] }
    {
        Tally {
            replies: 0,
            events: 0,
            live: 0,
            refused: 0,
        }
    }

    /// Of the replies of both. `NoMemory` only where a count is beyond 32 bits.
    pub fn plus(self, other: Tally) -> Result<Tally, NoMemory>
        ensures both { IfOk result (λ t. (rs qs : List Reply) → IsTally self rs → IsTally other qs
            → IsTally t (rs ++ qs)) }
        ensures cause { OnErr result (IsBeyond self other) }
    {
        Ok(Tally {
            replies: sum(self.replies, other.replies)?,
            events: sum(self.events, other.events)?,
            live: sum(self.live, other.live)?,
            refused: sum(self.refused, other.refused)?,
        })
    }

    /// Appends the summary of a run over a generated script: the documents at its end, the lines
    /// of the script, and these counts of its replies. After `NoMemory` a part of it may have been
    /// appended.
    pub fn write_summary(
        self,
        alloc: Global,
        documents: u32,
        lines: u32,
        out: &mut Vec<u8>,
    ) -> Result<(), NoMemory>
        ensures { (rs : List Reply) → IsTally self rs → OnOk result (out.new.items
            ≡ out.old.items ++ summary_line documents lines rs) }
    {
        let mut members = Vec::with_capacity(alloc, 6)?;
        add(&mut members, "documents", documents)?;
        add(&mut members, "events", self.events)?;
        add(&mut members, "lines", lines)?;
        add(&mut members, "live", self.live)?;
        add(&mut members, "refused", self.refused)?;
        add(&mut members, "replies", self.replies)?;
        write_line(alloc, members, out)
    }
}
