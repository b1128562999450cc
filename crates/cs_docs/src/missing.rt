//! The strong references of a value that dangle after changes.
ghost use Rattle.std.specs.Prelude.{◌≡◌, ◌++◌, ◌&&◌, ◌||◌, not, is_some, option_map, codes};
ghost use Rattle.std.specs.FinMap.Entries.{find};
ghost use Rattle.cs_value.specs.Pairs.{find as find_pair};
ghost use Rattle.cs_value.specs.Tree.{trees};
ghost use Rattle.cs_value.specs.View.{tree, fields, list_tree};
ghost use Rattle.cs_view.specs.Dataset.{id_cmp, stands};
ghost use Rattle.cs_view.specs.View.{edit, edits, document_of};
ghost use Rattle.cs_docs.specs.References.{is_yes, own_target, strong, strong_items, strong_pairs};
ghost use Rattle.cs_docs.specs.Missing.{first_missing};
ghost use Rattle.cs_docs.specs.Suspects.{dangles, is_changed};
ghost use Rattle.cs_view.specs.Document.{id_of};
ghost use Rattle.cs_docs.specs.Store.{after, AreChanges};

use crate::docs::Docs;
use cs_value::{Fields, Txt, Val};
use cs_view::{Change, Doc};

// The change of the id.
pub(crate) fn change_of<'c>(changes: &'c [Change], id: &Txt) -> Option<&'c Change>
    requires { AreChanges changes.now }
    ensures { option_map (λ c. (edit c.now).1) result ≡ find id_cmp id.now (edits changes.now) }
{
    match changes.binary_search_by(|change| change.id.as_str().cmp(id.as_str())) {
        Ok(index) => Some(&changes[index]),
        Err(_) => None,
    }
}

// Whether a document of the id stands after the changes.
#[tactic(auto, using(crate::proofs::Standing::stands_after))]
fn stands_after(store: &Docs, changes: &[Change], id: &Txt) -> bool
    requires { AreChanges changes.now }
    ensures { result ≡ stands id.now (after store.now changes.now) }
{
    match change_of(changes, id) {
        Some(change) => change.after.is_some(),
        None => store.get(id).is_some(),
    }
}

// Whether a reference may name no document: it is weak, or names one of another dataset.
fn may_dangle(object: &Fields) -> bool
    ensures { result ≡ (is_some (find_pair (codes "_dataset") (fields object.now))
        || is_yes (find_pair (codes "_weak") (fields object.now))) }
{
    if let Some(Val::Bool(true)) = object.get("_weak") {
        return true;
    }
    object.get("_dataset").is_some()
}

// The target of the object itself, where it dangles. Most objects are no references, and of those
// nothing but `_ref` is sought.
fn own_missing<'v>(object: &'v Fields, store: &Docs, changes: &[Change]) -> Option<&'v Txt>
    requires { AreChanges changes.now }
    ensures { option_map (λ t. t.now) result ≡ first_missing (after store.now changes.now)
        (own_target (fields object.now)) }
{
    let target = object.reference()?;
    if may_dangle(object) || stands_after(store, changes, target) {
        None
    } else {
        Some(target)
    }
}

// The first strong target in the value that dangles after the changes.
#[cycle(missing)]
pub(crate) fn first_missing<'v>(val: &'v Val, store: &Docs, changes: &[Change]) -> Option<&'v Txt>
    requires { AreChanges changes.now }
    ensures { option_map (λ t. t.now) result ≡ first_missing (after store.now changes.now)
        (strong (tree val.now)) }
{
    match val {
        Val::List(items) => missing_item(items, store, changes),
        Val::Obj(object) => missing_field(object, store, changes),
        _ => None,
    }
}

#[cycle(missing)]
fn missing_item<'v>(items: &'v Vec<Val>, store: &Docs, changes: &[Change]) -> Option<&'v Txt>
    requires { AreChanges changes.now }
    ensures { option_map (λ t. t.now) result ≡ first_missing (after store.now changes.now)
        (strong_items (trees (list_tree items.now.items))) }
{
    for item in items {
        if let Some(target) = first_missing(item, store, changes) {
            return Some(target);
        }
    }
    None
}

#[cycle(missing)]
fn missing_field<'v>(object: &'v Fields, store: &Docs, changes: &[Change]) -> Option<&'v Txt>
    requires { AreChanges changes.now }
    ensures { option_map (λ t. t.now) result ≡ first_missing (after store.now changes.now)
        (own_target (fields object.now) ++ strong_pairs (fields object.now)) }
{
    match own_missing(object, store, changes) {
        Some(target) => Some(target),
        None => missing_member(object, store, changes),
    }
}

#[cycle(missing)]
fn missing_member<'v>(object: &'v Fields, store: &Docs, changes: &[Change]) -> Option<&'v Txt>
    requires { AreChanges changes.now }
    ensures { option_map (λ t. t.now) result ≡ first_missing (after store.now changes.now)
        (strong_pairs (fields object.now)) }
{
    for (_, member) in object.pairs.iter() {
        if let Some(target) = first_missing(member, store, changes) {
            return Some(target);
        }
    }
    None
}

// Whether a strong reference of the document dangles after the changes.
pub(crate) fn dangles(it: &Doc, store: &Docs, changes: &[Change]) -> bool
    requires { AreChanges changes.now }
    ensures { result ≡ dangles (after store.now changes.now) (document_of it.now) }
{
    first_missing(it.val(), store, changes).is_some()
}

// Whether the document has no change, and a strong reference of it dangles after the changes.
pub(crate) fn dangles_unchanged(it: &Doc, store: &Docs, changes: &[Change]) -> bool
    requires { AreChanges changes.now }
    ensures { result ≡ (not (is_changed (edits changes.now) (id_of (document_of it.now)))
        && dangles (after store.now changes.now) (document_of it.now)) }
{
    change_of(changes, it.id()).is_none() && dangles(it, store, changes)
}
