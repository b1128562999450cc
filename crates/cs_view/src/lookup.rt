//! Which documents have a key.
ghost use Rattle.std.specs.Prelude.{◌≡◌, option_map};
ghost use Rattle.std.specs.List.{list_any};
ghost use Rattle.std.specs.Str.{bytes_eq};
ghost use Rattle.cs_value.specs.Tree.{trees};
ghost use Rattle.cs_value.specs.View.{tree, fields, list_tree};
ghost use Rattle.cs_value.specs.Words.{followed, ref_of};
ghost use Rattle.cs_view.specs.Document.{passes};
ghost use Rattle.cs_view.specs.Keys.{has, has_all, equals, has_element, has_ref, some_has_ref, some_pair_has_ref};
ghost use Rattle.cs_view.specs.View.{document_of};

use crate::doc::Doc;
use crate::key::{Key, Scalar};
use cs_value::{Fields, Txt, Val};

/// Whether the document has the key. It takes no memory.
#[tactic(auto, using(crate::proofs::Looking::one_id))]
pub fn has(key: &Key, doc: &Doc) -> bool
    ensures { result ≡ has key.now (document_of doc.now) }
{
    match key {
        Key::All => true,
        Key::Id(id) => id.as_str() == doc.id().as_str(),
        Key::Path(names, scalar) => match followed(names.texts(), doc.val()) {
            Some(val) => equals(scalar, val),
            None => false,
        },
        Key::Elem(names, scalar) => match followed(names.texts(), doc.val()) {
            Some(val) => has_element(scalar, val),
            None => false,
        },
        Key::Ref(target) => has_ref(doc.val(), target),
    }
}

/// Whether the document has each of the keys. It takes no memory.
pub fn has_all(keys: &[Key], doc: &Doc) -> bool
    ensures { result ≡ has_all keys.now (document_of doc.now) }
{
    for key in keys {
        if !has(key, doc) {
            return false;
        }
    }
    true
}

fn followed<'v>(names: &[Txt], val: &'v Val) -> Option<&'v Val>
    ensures { option_map (λ v. tree v.now) result ≡ followed names.now (tree val.now) }
{
    let mut here = val;
    for name in names {
        here = here.field(name.as_str())?;
    }
    Some(here)
}

fn equals(scalar: &Scalar, val: &Val) -> bool
    ensures { result ≡ equals scalar.now (tree val.now) }
{
    match (scalar, val) {
        (Scalar::Bool(wanted), Val::Bool(found)) => *found == *wanted,
        (Scalar::Num(wanted), Val::Num(found)) => *found == *wanted,
        (Scalar::Text(wanted), Val::Text(found)) => found.as_str() == wanted.as_str(),
        _ => false,
    }
}

fn has_element(scalar: &Scalar, val: &Val) -> bool
    ensures { result ≡ has_element scalar.now (tree val.now) }
{
    if let Val::List(items) = val {
        some_equals(scalar, items)
    } else {
        false
    }
}

fn some_equals(scalar: &Scalar, items: &Vec<Val>) -> bool
    ensures { result ≡ list_any (equals scalar.now) (list_tree items.now.items) }
{
    for item in items {
        if equals(scalar, item) {
            return true;
        }
    }
    false
}

fn is_ref(object: &Fields, target: &Txt) -> bool
    ensures { result ≡ passes (λ s. bytes_eq s target.now) (ref_of (fields object.now)) }
{
    match object.reference() {
        Some(text) => text.as_str() == target.as_str(),
        None => false,
    }
}

/// Whether an object at any depth of the value, the value itself included, has the text as `_ref`.
/// It takes no memory.
#[cycle(has_ref)]
pub fn has_ref(val: &Val, target: &Txt) -> bool
    ensures { result ≡ has_ref target.now (tree val.now) }
{
    match val {
        Val::List(items) => some_has_ref(items, target),
        Val::Obj(object) => is_ref(object, target) || some_pair_has_ref(object, target),
        _ => false,
    }
}

#[cycle(has_ref)]
fn some_has_ref(items: &Vec<Val>, target: &Txt) -> bool
    ensures { result ≡ some_has_ref target.now (trees (list_tree items.now.items)) }
{
    for item in items {
        if has_ref(item, target) {
            return true;
        }
    }
    false
}

#[cycle(has_ref)]
fn some_pair_has_ref(object: &Fields, target: &Txt) -> bool
    ensures { result ≡ some_pair_has_ref target.now (fields object.now) }
{
    for (_, member) in object.pairs.iter() {
        if has_ref(member, target) {
            return true;
        }
    }
    false
}
