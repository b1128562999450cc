//! Objects as lines of their own, written attribute by attribute.
ghost use Rattle.std.specs.Prelude.{◌≡◌, ◌++◌, OnOk, false, map};
ghost use Rattle.serde_json.specs.Written.{comma_if};
ghost use Rattle.cs_value.specs.Tree.{integer, text, object, pairs};
ghost use Rattle.cs_value.specs.View.{tree};
ghost use Rattle.cs_json.specs.Nodes.{node_tree, member_pair};
ghost use Rattle.cs_json.specs.Text.{json_text};
ghost use Rattle.cs_reply.specs.Fields.{number};
ghost use Rattle.cs_reply.specs.View.{Appended, member_text, members_joined};

use cs_json::{Member, Node, write_node, write_text};
use cs_value::{NoMemory, Val};
use itoa::Buffer;
use std::alloc::Global;

/// A number of a line, of a place or of an index.
pub(crate) fn number<'a>(n: u32) -> Node<'a>
    ensures { node_tree result ≡ number n }
{
    Node::Number(i64::from(n))
}

/// Appends the compact text of such a number, its decimal digits.
pub(crate) fn write_number(n: u32, out: &mut Vec<u8>) -> Result<(), NoMemory>
    ensures { OnOk result (out.new.items ≡ out.old.items ++ json_text (number n)) }
{
    write_integer(i64::from(n), out)
}

// Appends the compact text of any whole number.
fn write_integer(n: i64, out: &mut Vec<u8>) -> Result<(), NoMemory>
    ensures { OnOk result (out.new.items ≡ out.old.items ++ json_text (integer n)) }
{
    let mut digits = Buffer::new();
    Ok(out.extend_from_slice(digits.format(n).as_bytes())?)
}

/// A text.
pub(crate) fn text<'a>(s: &'a str) -> Node<'a>
    ensures { node_tree result ≡ text s.entry.now }
{
    Node::Text(s)
}

/// An attribute of an object.
pub(crate) fn member<'a>(name: &'a str, node: Node<'a>) -> Member<'a>
    ensures { member_pair result ≡ (name.entry.now, node_tree node.entry) }
{
    Member { name, node }
}

// Appends the compact text of a part: of a text and a number without serde_json.
fn write_part(alloc: Global, node: &Node<'_>, out: &mut Vec<u8>) -> Result<(), NoMemory>
    ensures { OnOk result (out.new.items ≡ out.old.items ++ json_text (node_tree node.now)) }
{
    match node {
        Node::Text(s) => write_text(alloc, *s, out),
        Node::Number(n) => write_integer(*n, out),
        Node::Value(_) | Node::Values(_) => write_node(alloc, node, out),
    }
}

// Appends the compact text of an attribute, behind a comma where another stands before it.
fn write_member(
    alloc: Global,
    later: bool,
    member: &Member<'_>,
    out: &mut Vec<u8>,
) -> Result<(), NoMemory>
    ensures { OnOk result
        (out.new.items ≡ out.old.items ++ (comma_if later ++ member_text (member_pair member.now))) }
{
    if later {
        out.push(b',')?;
    }
    write_text(alloc, member.name, out)?;
    out.push(b':')?;
    write_part(alloc, &member.node, out)
}

// Appends the compact texts of attributes, with commas between them and the bracket behind them.
fn write_members(alloc: Global, members: &[Member<'_>], out: &mut Vec<u8>) -> Result<(), NoMemory>
    ensures { OnOk result (out.new.items
        ≡ out.old.items ++ members_joined false (map member_pair members.now)) }
{
    let mut later = false;
    for member in members {
        write_member(alloc, later, member, out)?;
        later = true;
    }
    Ok(out.push(b'}')?)
}

/// Appends the compact text of an object and a newline. The names ascend by their bytes. After
/// `NoMemory` a part of it may have been appended.
pub fn write_line(
    alloc: Global,
    members: Vec<Member<'_>>,
    out: &mut Vec<u8>,
) -> Result<(), NoMemory>
    ensures { OnOk result (Appended out.old.items out.new.items
        (object (pairs (map member_pair members.entry.items)))) }
{
    out.push(b'{')?;
    write_members(alloc, &members, out)?;
    Ok(out.push(b'\n')?)
}

/// Appends the compact text of a value and a newline. After `NoMemory` a part of it may have been
/// appended.
pub fn write_value(alloc: Global, val: &Val, out: &mut Vec<u8>) -> Result<(), NoMemory>
    ensures { OnOk result (Appended out.old.items out.new.items (tree val.now)) }
{
    write_node(alloc, &Node::Value(val), out)?;
    out.push(b'\n')?;
    Ok(())
}
