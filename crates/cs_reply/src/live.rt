//! The answer of a live query as a line. Its text stands at hand and is copied: no value is walked.
ghost use Rattle.std.specs.Prelude.{◌≡◌, ◌++◌, OnOk};
ghost use Rattle.cs_value.specs.Tree.{Tree};
ghost use Rattle.cs_json.specs.Text.{json_text};
ghost use Rattle.cs_reply.specs.Reply.{live, reply_tree};
ghost use Rattle.cs_reply.specs.View.{Appended, before_answer};

use crate::line::write_number;
use cs_json::write_text;
use cs_value::NoMemory;
use std::alloc::Global;

// Appends what stands before the answer.
fn write_before_answer(
    alloc: Global,
    name: &str,
    line: u32,
    out: &mut Vec<u8>,
) -> Result<(), NoMemory>
    ensures { OnOk result (out.new.items ≡ out.old.items ++ before_answer line name.now) }
{
    out.extend_from_slice(b"{\"line\":")?;
    write_number(line, out)?;
    out.extend_from_slice(b",\"live\":")?;
    write_text(alloc, name, out)?;
    Ok(out.extend_from_slice(b",\"result\":")?)
}

/// Appends the reply with the answer of the live query of this name to the line of the number: its
/// compact text and a newline. The answer is given by its compact text. After `NoMemory` a part of
/// the reply may have been appended.
pub fn write_live(
    alloc: Global,
    name: &str,
    answer: &[u8],
    line: u32,
    out: &mut Vec<u8>,
) -> Result<(), NoMemory>
    ensures { (t : Tree) → answer.now ≡ json_text t → OnOk result
        (Appended out.old.items out.new.items (reply_tree line (live name.now t))) }
{
    write_before_answer(alloc, name, line, out)?;
    out.extend_from_slice(answer)?;
    Ok(out.extend_from_slice(b"}\n")?)
}
