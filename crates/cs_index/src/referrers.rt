//! The next document that refers to an id, found under the code of the reference.
ghost use Rattle.std.specs.Prelude.{◌≡◌, ◌&&◌, None, option_map};
ghost use Rattle.cs_view.specs.View.{document_of};
ghost use Rattle.cs_shelf.specs.Referring.{above};
ghost use Rattle.cs_docs.specs.Suspects.{lesser};
ghost use Rattle.cs_index.specs.Picking.{under};
ghost use Rattle.cs_index.specs.Referring.{referrer_at, is_below, least};

use crate::entry::Entry;
use cs_docs::Docs;
use cs_shelf::is_above;
use cs_value::Txt;
use cs_view::{Doc, has_ref};
use std::cmp::Ordering;
use std::collections::BTreeSet;

fn is_below(id: &Txt, high: Option<&Doc>) -> bool
    ensures { result ≡ is_below id.now (option_map (λ d. document_of d.now) high.entry) }
{
    match high {
        Some(doc) => id.as_str().cmp(doc.id().as_str()) == Ordering::Less,
        None => true,
    }
}

fn is_between(low: Option<&Txt>, id: &Txt, high: Option<&Doc>) -> bool
    ensures { result ≡ (above (option_map (λ i. i.now) low.entry) id.now
        && is_below id.now (option_map (λ d. document_of d.now) high.entry)) }
{
    is_above(low, id) && is_below(id, high)
}

// Of a document and the one at a place, if this refers to the target and stands above `low`, the
// one with the lesser id. A document that can't be the answer is not walked over.
#[tactic(auto, using(crate::proofs::Nearest::nearer))]
fn nearer_at<'d>(
    docs: &'d Docs,
    target: &Txt,
    low: Option<&Txt>,
    place: u32,
    least: Option<&'d Doc>,
) -> Option<&'d Doc>
    ensures { option_map (λ d. document_of d.now) result
        ≡ lesser (option_map (λ d. document_of d.now) least.entry)
        (referrer_at docs.now target.now (option_map (λ i. i.now) low.entry) place) }
{
    match docs.found(place) {
        Some(found) if is_between(low, found.id(), least) && has_ref(found.val(), target) => {
            Some(found)
        }
        _ => least,
    }
}

// The document with the least id, above `low` where it is given, that refers to the target, among
// those at the places under a code. It takes no memory.
pub(crate) fn next_under<'d>(
    entries: &BTreeSet<Entry>,
    code: u64,
    docs: &'d Docs,
    target: &Txt,
    low: Option<&Txt>,
) -> Option<&'d Doc>
    ensures { option_map (λ d. document_of d.now) result
        ≡ least docs.now target.now (option_map (λ i. i.now) low.entry)
        (under entries.now code) None }
{
    let mut least = None;
    let first = Entry { code, place: 0 };
    let last = Entry {
        code,
        place: 4_294_967_295,
    };
    for entry in entries.range(first..=last) {
        least = nearer_at(docs, target, low, entry.place, least);
    }
    least
}
