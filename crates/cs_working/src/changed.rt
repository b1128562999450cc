//! The changes that a working dataset leads to.
ghost use Rattle.std.specs.Prelude.{◌≡◌, ◌↔◌, ◌++◌, IsTrue, IfOk, OnOk, option_map};
ghost use Rattle.std.specs.Option.{option_to_list};
ghost use Rattle.cs_view.specs.Changes.{AreChangesBetween};
ghost use Rattle.cs_view.specs.View.{document_of, edit, edits};
ghost use Rattle.cs_working.specs.Changed.{IsOneChange};
ghost use Rattle.cs_working.specs.Working.{base, working};

use crate::working::Working;
use cs_value::{NoMemory, Txt};
use cs_view::{Change, Doc};
use std::alloc::Global;

// Whether both are none, or the same tree.
fn same_side(one: Option<&Doc>, other: Option<&Doc>) -> bool
    ensures { IsTrue result ↔ (option_map (λ d. document_of d.now) one.entry
        ≡ option_map (λ d. document_of d.now) other.entry) }
{
    match (one, other) {
        (Some(a), Some(b)) => a.val().same(b.val()),
        (None, None) => true,
        _ => false,
    }
}

fn copied(doc: Option<&Doc>) -> Result<Option<Doc>, NoMemory>
    ensures { IfOk result
        (λ o. option_map document_of o ≡ option_map (λ d. document_of d.now) doc.entry) }
{
    match doc {
        Some(doc) => Ok(Some(doc.copy()?)),
        None => Ok(None),
    }
}

// The change of an id under which these stand before and after.
fn change_of(
    alloc: Global,
    id: &Txt,
    before: Option<&Doc>,
    after: Option<&Doc>,
) -> Result<Option<Change>, NoMemory>
    ensures { IfOk result (λ o. IsOneChange id.now
        (option_map (λ d. document_of d.now) before.entry)
        (option_map (λ d. document_of d.now) after.entry) (option_map edit o)) }
{
    if same_side(before, after) {
        return Ok(None);
    }
    Ok(Some(Change {
        id: id.copy(alloc)?,
        before: copied(before)?,
        after: copied(after)?,
    }))
}

fn keep(changes: &mut Vec<Change>, found: Option<Change>) -> Result<(), NoMemory>
    ensures { OnOk result (edits changes.new.items
        ≡ edits changes.old.items ++ option_to_list (option_map edit found)) }
{
    if let Some(change) = found {
        changes.push(change)?;
    }
    Ok(())
}

impl<'d> Working<'d> {
    /// The changes from the store's dataset to the one that stands now. `NoMemory` where the
    /// allocator has no room for them.
    pub fn changes(&self) -> Result<Vec<Change>, NoMemory>
        ensures { IfOk result
            (λ cs. AreChangesBetween (base self.now) (working self.now) (edits cs.items)) }
    {
        let _len = self.touched.len();
        let mut changes = Vec::new(self.alloc);
        for id in self.touched.iter() {
            let found = change_of(self.alloc, id, self.stored(id), self.put.get(id))?;
            keep(&mut changes, found)?;
        }
        Ok(changes)
    }
}
