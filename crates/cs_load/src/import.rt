//! The document that a body of a data file is.
ghost use Rattle.std.specs.Prelude.{◌≡◌, true, OnOk, IfOk};
ghost use Rattle.cs_value.specs.Tree.{object};
ghost use Rattle.cs_value.specs.View.{tree, fields};
ghost use Rattle.cs_view.specs.Document.{is_body, is_shallow};
ghost use Rattle.cs_view.specs.View.{document_of};
ghost use Rattle.cs_machine.specs.DataFile.{with_default, imported};

use cs_txn::{has_text, put_text};
use cs_value::{Fields, NoMemory, Val};
use cs_view::Doc;
use std::alloc::Global;

// The moment of a document that gives none.
const FIRST_MOMENT: &str = "1970-01-01T00:00:00Z";

// Puts the text at the name, unless a text stands there.
fn put_default(
    alloc: Global,
    attributes: &mut Fields,
    name: &str,
    value: &str,
) -> Result<(), NoMemory>
    ensures { OnOk result (object (fields attributes.new) ≡ with_default name.now value.now
        (object (fields attributes.old))) }
{
    if has_text(attributes, name) {
        return Ok(());
    }
    put_text(alloc, attributes, name, value)
}

// The texts that every document has.
fn put_defaults(alloc: Global, attributes: &mut Fields) -> Result<(), NoMemory>
    ensures { OnOk result (object (fields attributes.new) ≡ imported
        (object (fields attributes.old))) }
{
    put_default(alloc, attributes, "_updatedAt", FIRST_MOMENT)?;
    put_default(alloc, attributes, "_createdAt", FIRST_MOMENT)?;
    put_default(alloc, attributes, "_rev", "import")
}

/// The document that a body of a data file is. The body is moved, not copied.
pub(crate) fn imported(alloc: Global, body: Val) -> Result<Doc, NoMemory>
    requires body { is_body (tree body) ≡ true }
    requires shallow { is_shallow (tree body) ≡ true }
    ensures { IfOk result (λ d. document_of d ≡ imported (tree body)) }
{
    let Val::Obj(mut attributes) = body else {
        unreachable!()
    };
    put_defaults(alloc, &mut attributes)?;
    Doc::of(alloc, Val::Obj(attributes))
}
