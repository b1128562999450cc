//! The codes of changes.
ghost use Rattle.std.specs.Prelude.{◌≡◌, ◌++◌, IfOk, OnOk, option_map};
ghost use Rattle.cs_view.specs.View.{document_of, edit, edits};
ghost use Rattle.cs_interest.specs.Changed.{all_codes, change_codes, changes_codes};

use cs_codes::{Seed, id_code, put_codes};
use cs_value::NoMemory;
use cs_view::{Change, Doc};
use std::alloc::Global;

// Puts the codes of what stands on a side of a change behind the others.
fn put_side(seed: &Seed, side: &Option<Doc>, out: &mut Vec<u64>) -> Result<(), NoMemory>
    ensures { OnOk result (out.new.items
        ≡ out.old.items ++ all_codes seed.now (option_map document_of side.now)) }
{
    match side {
        Some(doc) => {
            out.push(id_code(seed, doc.id()))?;
            put_codes(seed, doc, out)
        }
        None => Ok(()),
    }
}

// Puts the codes of both sides of a change.
fn put_change(seed: &Seed, change: &Change, out: &mut Vec<u64>) -> Result<(), NoMemory>
    ensures { OnOk result (out.new.items
        ≡ out.old.items ++ change_codes seed.now (edit change.now)) }
{
    put_side(seed, &change.before, out)?;
    put_side(seed, &change.after, out)
}

/// The codes under which interest in the keys of the documents before and after the changes is
/// held, in no order, and with repeats among them. `NoMemory` where the allocator has no room for
/// them.
pub fn codes_of_changes(
    alloc: Global,
    seed: &Seed,
    changes: &[Change],
) -> Result<Vec<u64>, NoMemory>
    ensures { IfOk result (λ cs. cs.items ≡ changes_codes seed.now (edits changes.now)) }
{
    let mut out = Vec::new(alloc);
    for change in changes {
        put_change(seed, change, &mut out)?;
    }
    Ok(out)
}
