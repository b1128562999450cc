//! The line with an answer of a live query.
ghost use Rattle.std.specs.Prelude.{◌≡◌, OnOk};
ghost use Rattle.cs_live.specs.Entries.{said};
ghost use Rattle.cs_live.specs.Lives.{Said, worded};
ghost use Rattle.cs_reply.specs.Reply.{reply_tree};
ghost use Rattle.cs_reply.specs.View.{Appended};
ghost use Rattle.cs_machine.specs.Rows.{live_reply};

use cs_live::LiveLine;
use cs_reply::write_live;
use cs_value::NoMemory;
use std::alloc::Global;

/// Appends the reply with the answer of a live query, to the line of the number. After `NoMemory` a
/// part of it may have been appended.
pub fn write_answer(
    alloc: Global,
    answer: &LiveLine,
    line: u32,
    out: &mut Vec<u8>,
) -> Result<(), NoMemory>
    ensures { (s : Said) → said answer.now ≡ worded s → OnOk result
        (Appended out.old.items out.new.items (reply_tree line (live_reply s))) }
{
    write_live(alloc, answer.name.as_str(), &answer.answer, line, out)
}
