//! The entries of all documents of a store.
ghost use Rattle.std.specs.Prelude.{◌≡◌, false, IfOk, OnOk};
ghost use Rattle.cs_view.specs.View.{document_of};
ghost use Rattle.cs_docs.specs.Store.{docs as dataset};
ghost use Rattle.cs_codes.specs.Kinds.{coded};
ghost use Rattle.cs_index.specs.Entries.{is_put, puts, or_some};
ghost use Rattle.cs_index.specs.Spreading.{is_spread, Scatter};
ghost use Rattle.cs_docs.specs.Gathered.{entering};
ghost use Rattle.cs_index.specs.declared.entry.Entry.{Entry};

use crate::entry::Entry;
use crate::spread::Spread;
use cs_codes::Coding;
use cs_docs::Docs;
use cs_value::NoMemory;
use cs_view::Doc;
use std::alloc::Global;

// Adds an entry at a place for each of the codes.
#[tactic(auto, using(crate::proofs::Marks::one_more))]
fn list_codes(spread: &mut Spread, codes: &Vec<u64>, place: u32) -> Result<(), NoMemory>
    ensures { OnOk result (Scatter (is_put (λ x. false) place codes.now.items)
        spread.old spread.new) }
{
    for code in codes {
        spread.push(*code, place)?;
    }
    Ok(())
}

// Adds an entry at a place for each code of a document. What stood in `room` is gone.
fn list_doc(
    coding: &Coding,
    spread: &mut Spread,
    room: &mut Vec<u64>,
    doc: &Doc,
    place: u32,
) -> Result<(), NoMemory>
    ensures { OnOk result (Scatter
        (is_put (λ x. false) place (coded coding.now (document_of doc.now)))
        spread.old spread.new) }
{
    room.clear();
    coding.put_codes(doc, room)?;
    list_codes(spread, room, place)
}

// The entries of all documents, of the kinds of keys that are coded. The walk is over their places,
// so that none is sought by its id.
pub(crate) fn list_all(alloc: Global, coding: &Coding, docs: &Docs) -> Result<Spread, NoMemory>
    ensures { IfOk result (λ spread. (q : Entry) → is_spread q spread
        ≡ or_some (puts coding.now docs.now q) (entering (dataset docs.now)) false) }
{
    let mut spread = Spread::new(alloc)?;
    let mut room = Vec::new(alloc);
    for place in docs.places(alloc)? {
        let doc = docs.at(place);
        list_doc(coding, &mut spread, &mut room, doc, place)?;
    }
    Ok(spread)
}
