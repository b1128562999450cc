//! What changes do to the entries of the documents that stand before them. It is told before they
//! are installed: the codes of each side are then taken once.
ghost use Rattle.std.specs.Prelude.{◌≡◌, ℕ, Some, false, not, ◌&&◌, option_map, IfOk, OnOk};
ghost use Rattle.std.specs.List.Sorted.{IsNonDecreasing};
ghost use Rattle.cs_view.specs.View.{document_of, edit, edits};
ghost use Rattle.cs_codes.specs.Codes.{is_among};
ghost use Rattle.cs_codes.specs.Kinds.{coded, side_coded};
ghost use Rattle.cs_index.specs.Entries.{entry, same_entry, is_in, is_put, is_apart, parts, gains, or_some, Collect};
ghost use Rattle.cs_index.specs.declared.entry.Entry.{Entry};

use crate::entry::Entry;
use cs_codes::{Coding, has_code, sort_codes};
use cs_docs::Docs;
use cs_value::NoMemory;
use cs_view::{Change, Doc};
use std::alloc::Global;

/// The entries that go and those that come where changes are installed, of the documents that stand
/// before the changes.
#[derive(Drop)]
pub struct Delta {
    pub(crate) lost: Vec<Entry>,
    pub(crate) gained: Vec<Entry>,
}

// The codes of a document in ascending order.
fn sorted_codes(alloc: Global, coding: &Coding, doc: &Doc) -> Result<Vec<u64>, NoMemory>
    ensures among { IfOk result (λ cs. (x : ℕ) → is_among x cs.items
        ≡ is_among x (coded coding.now (document_of doc.now))) }
    ensures ascending { IfOk result (λ cs. IsNonDecreasing cs.items) }
{
    let mut codes = coding.codes_of(alloc, doc)?;
    sort_codes(&mut codes);
    Ok(codes)
}

// The codes of what stands on a side of a change in ascending order.
fn side_codes(alloc: Global, coding: &Coding, side: &Option<Doc>) -> Result<Vec<u64>, NoMemory>
    ensures among { IfOk result (λ cs. (x : ℕ) → is_among x cs.items
        ≡ is_among x (side_coded coding.now (option_map document_of side.now))) }
    ensures ascending { IfOk result (λ cs. IsNonDecreasing cs.items) }
{
    match side {
        Some(doc) => sorted_codes(alloc, coding, doc),
        None => Ok(Vec::new(alloc)),
    }
}

#[tactic(auto, using(crate::proofs::Marks::in_end))]
fn list_code(
    entries: &mut Vec<Entry>,
    out: &Vec<u64>,
    code: u64,
    place: u32,
) -> Result<(), NoMemory>
    requires { IsNonDecreasing out.now.items }
    ensures { OnOk result (Collect
        (λ q. not (is_among code out.now.items) && same_entry (entry code place) q)
        entries.old.items entries.new.items) }
{
    if has_code(out, code) {
        return Ok(());
    }
    entries.push(Entry { code, place })?;
    Ok(())
}

// Adds an entry for each of the codes that are not left out to a list.
#[tactic(auto, using(crate::proofs::Marks::one_more))]
fn list_codes(
    entries: &mut Vec<Entry>,
    out: &Vec<u64>,
    codes: &Vec<u64>,
    place: u32,
) -> Result<(), NoMemory>
    requires { IsNonDecreasing out.now.items }
    ensures { OnOk result (Collect (is_put (λ x. is_among x out.now.items) place codes.now.items)
        entries.old.items entries.new.items) }
{
    for code in codes {
        list_code(entries, out, *code, place)?;
    }
    Ok(())
}

impl Delta {
    // What a change of a document that stands at a place does to its entries.
    fn add_at(
        &mut self,
        alloc: Global,
        coding: &Coding,
        before: &Doc,
        after: &Option<Doc>,
        place: u32,
    ) -> Result<(), NoMemory>
        ensures lost { OnOk result (Collect
            (is_apart coding.now (option_map document_of after.now)
            (Some (document_of before.now)) place)
            self.old.lost.items self.new.lost.items) }
        ensures gained { OnOk result (Collect
            (is_apart coding.now (Some (document_of before.now))
            (option_map document_of after.now) place)
            self.old.gained.items self.new.gained.items) }
    {
        let had = sorted_codes(alloc, coding, before)?;
        let has = side_codes(alloc, coding, after)?;
        list_codes(&mut self.lost, &has, &had, place)?;
        list_codes(&mut self.gained, &had, &has, place)
    }

    // What a change does to the entries of a document that stands before it.
    #[tactic(auto, using(crate::proofs::Marks::nothing_put))]
    fn add(
        &mut self,
        alloc: Global,
        coding: &Coding,
        docs: &Docs,
        change: &Change,
    ) -> Result<(), NoMemory>
        ensures lost { OnOk result (Collect (λ q. parts coding.now docs.now q (edit change.now))
            self.old.lost.items self.new.lost.items) }
        ensures gained { OnOk result (Collect (λ q. gains coding.now docs.now q (edit change.now))
            self.old.gained.items self.new.gained.items) }
    {
        let Some(before) = &change.before else {
            return Ok(());
        };
        match docs.place(&change.id) {
            Some(place) => self.add_at(alloc, coding, before, &change.after, place),
            None => Ok(()),
        }
    }
}

// What changes do to the entries of the documents that stand before them.
pub(crate) fn delta_of(
    alloc: Global,
    coding: &Coding,
    docs: &Docs,
    changes: &[Change],
) -> Result<Delta, NoMemory>
    ensures lost { IfOk result (λ delta. (q : Entry) → is_in q delta.lost.items
        ≡ or_some (parts coding.now docs.now q) (edits changes.now) false) }
    ensures gained { IfOk result (λ delta. (q : Entry) → is_in q delta.gained.items
        ≡ or_some (gains coding.now docs.now q) (edits changes.now) false) }
{
    let mut delta = Delta {
        lost: Vec::new(alloc),
        gained: Vec::new(alloc),
    };
    for change in changes {
        delta.add(alloc, coding, docs, change)?;
    }
    Ok(delta)
}
