//! Texts as JSON.
ghost use Rattle.std.specs.Prelude.{◌≡◌, ◌++◌, ◌∷◌, [], true, OnOk};
ghost use Rattle.json.specs.Print.{escape, escape_byte};
ghost use Rattle.cs_value.specs.Tree.{text as text_tree};
ghost use Rattle.cs_json.specs.Text.{json_text};

use crate::node::Node;
use crate::ser::write_node;
use cs_value::NoMemory;
use std::alloc::Global;

// Whether the byte stands for itself in a JSON text, as all but quotes, backslashes and controls
// do: RFC 8259, section 7.
fn is_plain(byte: u8) -> bool
    ensures { result ≡ true → escape_byte byte ≡ byte ∷ [] }
{
    if byte < 0x20 {
        return false;
    }
    if byte == b'"' {
        return false;
    }
    byte != b'\\'
}

fn are_plain(bytes: &[u8]) -> bool
    ensures { result ≡ true → escape bytes.now ≡ bytes.now }
{
    for byte in bytes {
        if !is_plain(*byte) {
            return false;
        }
    }
    true
}

// Appends the bytes between quotes.
fn write_between_quotes(bytes: &[u8], out: &mut Vec<u8>) -> Result<(), NoMemory>
    ensures { OnOk result
        (out.new.items ≡ out.old.items ++ (34 ∷ (bytes.now ++ 34 ∷ []))) }
{
    out.push(b'"')?;
    out.extend_from_slice(bytes)?;
    Ok(out.push(b'"')?)
}

/// Appends the compact text of a text. One in which nothing has to be escaped, as in ids and most
/// names, is copied. After `NoMemory` a part of it may have been appended.
pub fn write_text(alloc: Global, text: &str, out: &mut Vec<u8>) -> Result<(), NoMemory>
    ensures { OnOk result (out.new.items ≡ out.old.items ++ json_text (text_tree text.now)) }
{
    if are_plain(text.as_bytes()) {
        return write_between_quotes(text.as_bytes(), out);
    }
    write_node(alloc, &Node::Text(text), out)
}
