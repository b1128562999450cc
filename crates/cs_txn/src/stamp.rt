//! The document that a value becomes when a mutation installs it.
ghost use Rattle.std.specs.Prelude.{◌≡◌, true, OnOk, IfOk};
ghost use Rattle.cs_value.specs.Pairs.{put};
ghost use Rattle.cs_value.specs.Tree.{text, object};
ghost use Rattle.cs_value.specs.View.{tree, fields};
ghost use Rattle.cs_view.specs.Document.{is_body, is_shallow, has_text};
ghost use Rattle.cs_view.specs.View.{document_of};
ghost use Rattle.cs_txn.specs.Install.{entered, with_made_id};

use crate::laws::entered_is_a_document;
use cs_value::{Fields, NoMemory, Txt, Val};
use cs_view::Doc;
use std::alloc::Global;

/// Puts a text at the name, in place of what stood there. `NoMemory` where the allocator has no
/// room for it.
pub fn put_text(
    alloc: Global,
    attributes: &mut Fields,
    name: &str,
    value: &str,
) -> Result<(), NoMemory>
    ensures { OnOk result (fields attributes.new ≡ put name.now (text value.now)
        (fields attributes.old)) }
{
    let name = Txt::copy_of(alloc, name)?;
    let value = Val::Text(Txt::copy_of(alloc, value)?);
    attributes.set(name, value)
}

/// Whether a text stands at the name.
pub fn has_text(attributes: &Fields, name: &str) -> bool
    ensures { result ≡ has_text name.now (object (fields attributes.now)) }
{
    match attributes.get(name) {
        Some(Val::Text(_)) => true,
        _ => false,
    }
}

// The attributes that the store sets itself.
fn stamp(alloc: Global, attributes: &mut Fields, tx: &str, moment: &str) -> Result<(), NoMemory>
    ensures { OnOk result (object (fields attributes.new) ≡ entered tx.now moment.now
        (object (fields attributes.old))) }
{
    if !has_text(attributes, "_createdAt") {
        put_text(alloc, attributes, "_createdAt", moment)?;
    }
    put_text(alloc, attributes, "_rev", tx)?;
    put_text(alloc, attributes, "_updatedAt", moment)
}

/// The document that a value becomes in the transaction `tx` at the moment. `NoMemory` where the
/// allocator has no room for what the store sets.
pub(crate) fn entered(alloc: Global, body: Val, tx: &str, moment: &str) -> Result<Doc, NoMemory>
    requires body { is_body (tree body) ≡ true }
    requires shallow { is_shallow (tree body) ≡ true }
    ensures { IfOk result (λ d. document_of d ≡ entered tx.now moment.now (tree body)) }
{
    entered_is_a_document();
    let Val::Obj(mut attributes) = body else {
        unreachable!()
    };
    stamp(alloc, &mut attributes, tx, moment)?;
    Doc::of(alloc, Val::Obj(attributes))
}

/// The value with an id: one without `_id` gets the transaction's id, a dash and the index.
pub(crate) fn with_made_id(alloc: Global, body: Val, tx: &str, index: u32) -> Result<Val, NoMemory>
    ensures { IfOk result (λ v. tree v ≡ with_made_id tx.now index (tree body)) }
{
    match body {
        Val::Obj(mut attributes) => {
            if attributes.get("_id").is_none() {
                let id = format!(in alloc; "{tx}-{index}")?;
                put_text(alloc, &mut attributes, "_id", id.as_str())?;
            }
            Ok(Val::Obj(attributes))
        }
        other => Ok(other),
    }
}
