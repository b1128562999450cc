//! Entries put among others, and taken out.
ghost use Rattle.std.specs.BTreeSet.{IsFromIterResult};
ghost use Rattle.std.specs.Prelude.{false, IfOk, OnOk};
ghost use Rattle.cs_view.specs.View.{document_of, edit, edits};
ghost use Rattle.cs_codes.specs.Kinds.{coded};
ghost use Rattle.cs_index.specs.Entries.{entry_cmp, same_entry, is_in, is_put, enters, Gain, Grows, Lose, EnterAll};

use crate::entry::Entry;
use cs_codes::Coding;
use cs_docs::Docs;
use cs_value::NoMemory;
use cs_view::{Change, Doc};
use std::alloc::Global;
use std::collections::BTreeSet;

// Takes out the entries of a list. It takes no memory.
pub(crate) fn take_out(entries: &mut BTreeSet<Entry>, lost: Vec<Entry>)
    ensures { Lose lost.items entries.old entries.new }
{
    for entry in lost {
        entries.remove(&entry);
    }
}

fn put_entry(entries: &mut BTreeSet<Entry>, one: Entry) -> Result<(), NoMemory>
    ensures gain { OnOk result (Gain (same_entry one) entries.old entries.new) }
    ensures grows { Grows entries.old entries.new }
{
    entries.insert(one)?;
    Ok(())
}

// Puts the entries of a list. Those that stand there stay in any case.
#[tactic(auto, using(crate::proofs::Marks::one_more))]
pub(crate) fn put_in(entries: &mut BTreeSet<Entry>, gained: Vec<Entry>) -> Result<(), NoMemory>
    ensures gain { OnOk result (Gain (λ q. is_in q gained.items) entries.old entries.new) }
    ensures grows { Grows entries.old entries.new }
{
    for entry in gained {
        put_entry(entries, entry)?;
    }
    Ok(())
}

// The entries of a list as a set. Where they ascend none is sought.
fn set_of(alloc: Global, listed: Vec<Entry>) -> Result<BTreeSet<Entry>, NoMemory>
    ensures { IfOk result (IsFromIterResult entry_cmp listed.items) }
{
    let set: BTreeSet<Entry> = listed.into_iter().collect(alloc)?;
    Ok(set)
}

// Puts the entries of a list, which ascend, by a set of their own that is joined to the other: that
// takes less time than to seek each one's place, where they are many. Those that stand there stay
// in any case.
pub(crate) fn put_ascending(
    alloc: Global,
    entries: &mut BTreeSet<Entry>,
    gained: Vec<Entry>,
) -> Result<(), NoMemory>
    ensures gain { OnOk result (Gain (λ q. is_in q gained.items) entries.old entries.new) }
    ensures grows { Grows entries.old entries.new }
{
    let mut apart = set_of(alloc, gained)?;
    entries.append(&mut apart)?;
    Ok(())
}

// Puts an entry at the place for each of the codes.
#[tactic(auto, using(crate::proofs::Marks::one_more))]
fn put_codes(entries: &mut BTreeSet<Entry>, codes: Vec<u64>, place: u32) -> Result<(), NoMemory>
    ensures { OnOk result (Gain (is_put (λ x. false) place codes.items) entries.old entries.new) }
{
    for code in codes {
        put_entry(entries, Entry { code, place })?;
    }
    Ok(())
}

// Puts an entry at the place for each code of a document.
fn put_at(
    alloc: Global,
    coding: &Coding,
    entries: &mut BTreeSet<Entry>,
    doc: &Doc,
    place: u32,
) -> Result<(), NoMemory>
    ensures { OnOk result (Gain
        (is_put (λ x. false) place (coded coding.now (document_of doc.now)))
        entries.old entries.new) }
{
    let codes = coding.codes_of(alloc, doc)?;
    put_codes(entries, codes, place)
}

// Puts the entries of the document that a change makes, if it makes one.
#[tactic(auto, using(crate::proofs::Marks::nothing_put))]
fn enter_change(
    alloc: Global,
    coding: &Coding,
    entries: &mut BTreeSet<Entry>,
    docs: &Docs,
    change: &Change,
) -> Result<(), NoMemory>
    ensures { OnOk result
        (Gain (λ q. enters coding.now docs.now q (edit change.now)) entries.old entries.new) }
{
    match (&change.before, &change.after) {
        (None, Some(made)) => match docs.place(&change.id) {
            Some(place) => put_at(alloc, coding, entries, made, place),
            None => Ok(()),
        },
        _ => Ok(()),
    }
}

// Puts the entries of the documents that changes make.
pub(crate) fn enter_changes(
    alloc: Global,
    coding: &Coding,
    entries: &mut BTreeSet<Entry>,
    docs: &Docs,
    changes: &[Change],
) -> Result<(), NoMemory>
    ensures { OnOk result
        (EnterAll coding.now docs.now (edits changes.now) entries.old entries.new) }
{
    for change in changes {
        enter_change(alloc, coding, entries, docs, change)?;
    }
    Ok(())
}
