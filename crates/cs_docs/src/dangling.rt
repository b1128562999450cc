//! The first strong reference that dangles after changes.
ghost use Rattle.std.specs.Prelude.{◌≡◌, ◌↔◌, ◌&&◌, option_map, Some, IsNone, true};
ghost use Rattle.std.specs.List.{filter};
ghost use Rattle.std.specs.FinMap.Entries.{find};
ghost use Rattle.cs_view.specs.Document.{id_of};
ghost use Rattle.cs_view.specs.Dataset.{id_cmp};
ghost use Rattle.cs_view.specs.Changes.{LeadFrom};
ghost use Rattle.cs_view.specs.View.{document_of, edit, edits};
ghost use Rattle.cs_view.specs.Keys.{has_ref};
ghost use Rattle.cs_shelf.specs.Referring.{above};
ghost use Rattle.cs_value.specs.Words.{first_of};
ghost use Rattle.cs_docs.specs.References.{clean, first_dangling};
ghost use Rattle.cs_docs.specs.Suspects.{dangles, is_referrer, suspected, lesser};
ghost use Rattle.cs_docs.specs.Store.{docs, after, AreChanges};

use crate::docs::Docs;
use crate::missing::{dangles, dangles_unchanged, first_missing};
use crate::referrers::Referrers;
use cs_value::Txt;
use cs_view::{Change, Doc};
use std::cmp::Ordering;

/// A strong reference that names no document.
#[derive(Clone, Copy, Drop)]
pub struct Dangling<'d> {
    /// The id of the referrer.
    pub from: &'d Txt,
    /// The id that no document has.
    pub to: &'d Txt,
}

// Of two documents the one with the lesser id.
fn lesser<'d>(one: Option<&'d Doc>, other: Option<&'d Doc>) -> Option<&'d Doc>
    ensures { option_map (λ d. document_of d.now) result
        ≡ lesser (option_map (λ d. document_of d.now) one.entry)
        (option_map (λ d. document_of d.now) other.entry) }
{
    let Some(a) = one else { return other };
    let Some(b) = other else { return Some(a) };
    if b.id().as_str().cmp(a.id().as_str()) == Ordering::Less {
        Some(b)
    } else {
        Some(a)
    }
}

// The next document that refers to the target.
fn next_doc<'d, R: Referrers>(
    store: &'d Docs,
    referrers: &R,
    target: &Txt,
    low: Option<&Txt>,
) -> Option<&'d Doc>
    requires { R.dataset referrers.now ≡ docs store.now }
    ensures { option_map (λ d. document_of d.now) result
        ≡ first_of (filter (λ d. has_ref target.now d
        && above (option_map (λ i. i.now) low.entry) (id_of d)) (docs store.now)) }
{
    match referrers.next_referrer(target, low) {
        Some(from) => store.get(from),
        None => None,
    }
}

// The first unchanged document that refers to the target and has a dangling reference after the
// changes.
fn removed_referrer<'d, R: Referrers>(
    store: &'d Docs,
    changes: &[Change],
    referrers: &R,
    target: &Txt,
) -> Option<&'d Doc>
    requires changes { AreChanges changes.now }
    requires same { R.dataset referrers.now ≡ docs store.now }
    ensures { option_map (λ d. document_of d.now) result
        ≡ first_of (filter (λ d. dangles (after store.now changes.now) d
        && is_referrer (edits changes.now) target.now d) (docs store.now)) }
{
    let mut low: Option<&Txt> = None;
    while let Some(doc) = next_doc(store, referrers, target, low) {
        if dangles_unchanged(doc, store, changes) {
            return Some(doc);
        }
        low = Some(doc.id());
    }
    None
}

// The first document with a dangling reference that a change puts there, or that refers to what it
// takes away.
fn suspect<'d, R: Referrers>(
    store: &'d Docs,
    changes: &[Change],
    referrers: &R,
    change: &'d Change,
) -> Option<&'d Doc>
    requires changes { AreChanges changes.now }
    requires same { R.dataset referrers.now ≡ docs store.now }
    requires one { find id_cmp change.now.id (edits changes.now) ≡ Some (edit change.now).1 }
    ensures { option_map (λ d. document_of d.now) result
        ≡ first_of (filter (λ d. dangles (after store.now changes.now) d
        && suspected (edits changes.now) d (edit change.now)) (after store.now changes.now)) }
{
    match &change.after {
        Some(put) => {
            if dangles(put, store, changes) {
                Some(put)
            } else {
                None
            }
        }
        None => removed_referrer(store, changes, referrers, &change.id),
    }
}

// The first document with a dangling reference.
fn first_document<'d, R: Referrers>(
    store: &'d Docs,
    changes: &'d [Change],
    referrers: &R,
) -> Option<&'d Doc>
    requires changes { AreChanges changes.now }
    requires leads { LeadFrom (docs store.now) (edits changes.now) }
    requires same { R.dataset referrers.now ≡ docs store.now }
    ensures { option_map (λ d. document_of d.now) result
        ≡ first_of (filter (dangles (after store.now changes.now)) (after store.now changes.now)) }
{
    let mut first = None;
    for change in changes {
        first = lesser(first, suspect(store, changes, referrers, change));
    }
    first
}

// The first document's first target.
fn first_found<'d, R: Referrers>(
    store: &'d Docs,
    changes: &'d [Change],
    referrers: &R,
) -> Option<Dangling<'d>>
    requires changes { AreChanges changes.now }
    requires leads { LeadFrom (docs store.now) (edits changes.now) }
    requires same { R.dataset referrers.now ≡ docs store.now }
    ensures { option_map (λ d. (d.from.now, d.to.now)) result
        ≡ first_dangling (after store.now changes.now) }
{
    let from = first_document(store, changes, referrers)?;
    let to = first_missing(from.val(), store, changes)?;
    Some(Dangling {
        from: from.id(),
        to,
    })
}

/// The first dangling strong reference of the dataset after the changes: by the referrer's id, and
/// then in document order. `None` exactly where none dangles. It looks at the changed documents and
/// at the referrers of removed ones, and takes no memory.
pub fn first_dangling<'d, R: Referrers>(
    store: &'d Docs,
    changes: &'d [Change],
    referrers: &R,
) -> Option<Dangling<'d>>
    requires changes { AreChanges changes.now }
    requires leads { LeadFrom (docs store.now) (edits changes.now) }
    requires same { R.dataset referrers.now ≡ docs store.now }
    ensures pair { option_map (λ d. (d.from.now, d.to.now)) result
        ≡ first_dangling (after store.now changes.now) }
    ensures none { IsNone result ↔ clean (after store.now changes.now) ≡ true }
{
    first_found(store, changes, referrers)
}
