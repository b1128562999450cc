//! What a query found as a line, written piece by piece: no object is put together.
ghost use Rattle.std.specs.Prelude.{◌≡◌, ◌++◌, OnOk};
ghost use Rattle.cs_json.specs.Nodes.{node_tree};
ghost use Rattle.cs_reply.specs.Reply.{found, reply_tree};
ghost use Rattle.cs_reply.specs.View.{Appended, before_result};

use crate::line::write_number;
use cs_json::{Node, write_node};
use cs_value::NoMemory;
use std::alloc::Global;

// Appends what stands before that which was found.
fn write_before_result(line: u32, out: &mut Vec<u8>) -> Result<(), NoMemory>
    ensures { OnOk result (out.new.items ≡ out.old.items ++ before_result line) }
{
    out.extend_from_slice(b"{\"line\":")?;
    write_number(line, out)?;
    Ok(out.extend_from_slice(b",\"result\":")?)
}

/// Appends the reply with what a query found to the line of the number: its compact text and a
/// newline. After `NoMemory` a part of it may have been appended.
pub(crate) fn write_found(
    alloc: Global,
    node: &Node<'_>,
    line: u32,
    out: &mut Vec<u8>,
) -> Result<(), NoMemory>
    ensures { OnOk result (Appended out.old.items out.new.items
        (reply_tree line (found (node_tree node.now)))) }
{
    write_before_result(line, out)?;
    write_node(alloc, node, out)?;
    Ok(out.extend_from_slice(b"}\n")?)
}
