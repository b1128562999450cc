//! Values as their compact texts.
ghost use Rattle.std.specs.Prelude.{◌≡◌, ◌++◌, OnOk, OnErr, IfOk};
ghost use Rattle.cs_value.specs.View.{tree};
ghost use Rattle.cs_json.specs.Text.{json_text};
ghost use Rattle.cs_json.specs.Nodes.{node_tree};

use crate::node::Node;
use crate::print::print_node;
use cs_value::{NoMemory, Val};
use json::Writer;
use std::alloc::Global;
use std::mem;

// The text of a value is gathered where there is room for so many bytes at first.
const ROOM: usize = 128;

/// The value's compact text: JSON without blanks, the attributes of each object in the order of
/// their names, and without a newline at its end. `NoMemory` where the allocator has no room for
/// it.
pub fn write(alloc: Global, val: &Val) -> Result<Vec<u8>, NoMemory>
    ensures { IfOk result (λ b. b.items ≡ json_text (tree val.now)) }
{
    let mut out = Vec::with_capacity(alloc, ROOM)?;
    write_node(alloc, &Node::Value(val), &mut out)?;
    Ok(out)
}

/// Appends the compact text of a value that is lent: JSON without blanks, and without a newline at
/// its end. `NoMemory` where the allocator has no room for it; `out` holds what it held then.
pub fn write_node(alloc: Global, node: &Node<'_>, out: &mut Vec<u8>) -> Result<(), NoMemory>
    ensures appended { OnOk result
        (out.new.items ≡ out.old.items ++ json_text (node_tree node.now)) }
    ensures kept { OnErr result (out.new.items ≡ out.old.items) }
{
    let len = out.len();
    let mut writer = Writer::new(mem::replace(out, Vec::new(alloc)));
    let printed = print_node(node, &mut writer);
    *out = writer.into_inner();
    match printed {
        Ok(()) => Ok(()),
        Err(_) => {
            out.truncate(len);
            Err(NoMemory)
        }
    }
}
