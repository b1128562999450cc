//! The codes of the keys of a document.
ghost use Rattle.std.specs.Prelude.{◌≡◌, ◌<◌, ◌++◌, IfOk, OnOk};
ghost use Rattle.cs_value.specs.Tree.{trees};
ghost use Rattle.cs_value.specs.View.{tree, fields, list_tree};
ghost use Rattle.cs_view.specs.View.{document_of};
ghost use Rattle.cs_codes.specs.Codes.{scalar_codes, elements_codes, here, inside, pairs_inside, own_refs, refs, trees_refs, pairs_refs, key_codes};

use crate::code::{
    boolean_code, number_code, ref_code, start, text_code, with_element, with_text, with_value,
};
use crate::seed::Seed;
use cs_value::{Fields, NoMemory, Val};
use cs_view::Doc;
use std::alloc::Global;
use std::hash::FoldHasher;

// The most names of a path that an index keeps.
const MOST_NAMES: u32 = 4;

// Most documents have no more codes: room for so many is taken at once.
const USUAL_CODES: usize = 32;

// The code of a scalar.
pub(crate) fn put_scalar(hash: FoldHasher, val: &Val, out: &mut Vec<u64>) -> Result<(), NoMemory>
    ensures { OnOk result (out.new.items ≡ out.old.items ++ scalar_codes hash (tree val.now)) }
{
    match val {
        Val::Bool(value) => out.push(boolean_code(hash, *value))?,
        Val::Num(number) => out.push(number_code(hash, *number))?,
        Val::Text(text) => out.push(text_code(hash, text))?,
        _ => {}
    }
    Ok(())
}

// The codes of the scalars among the elements of a list.
pub(crate) fn put_elements(
    hash: FoldHasher,
    items: &Vec<Val>,
    out: &mut Vec<u64>,
) -> Result<(), NoMemory>
    ensures { OnOk result (out.new.items
        ≡ out.old.items ++ elements_codes hash (trees (list_tree items.now.items))) }
{
    for item in items {
        put_scalar(hash, item, out)?;
    }
    Ok(())
}

// The codes of a value at the end of the names that were read.
fn put_here(hash: FoldHasher, val: &Val, out: &mut Vec<u64>) -> Result<(), NoMemory>
    ensures { OnOk result (out.new.items ≡ out.old.items ++ here hash (tree val.now)) }
{
    match val {
        Val::List(items) => put_elements(with_element(hash), items, out),
        Val::Obj(_) => Ok(()),
        _ => put_scalar(with_value(hash), val, out),
    }
}

// The codes at the attributes of a value, by at most so many names more.
#[cycle(inside)]
fn put_inside(room: u32, hash: FoldHasher, val: &Val, out: &mut Vec<u64>) -> Result<(), NoMemory>
    ensures { OnOk result (out.new.items ≡ out.old.items ++ inside room hash (tree val.now)) }
{
    if room == 0 {
        return Ok(());
    }
    if let Val::Obj(object) = val {
        put_fields_inside(room, hash, object, out)
    } else {
        Ok(())
    }
}

#[cycle(inside)]
fn put_fields_inside(
    room: u32,
    hash: FoldHasher,
    object: &Fields,
    out: &mut Vec<u64>,
) -> Result<(), NoMemory>
    requires { 0 < room }
    ensures { OnOk result (out.new.items
        ≡ out.old.items ++ pairs_inside room hash (fields object.now)) }
{
    for (name, member) in object.pairs.iter() {
        let longer = with_text(hash, name);
        put_here(longer, member, out)?;
        put_inside(room - 1, longer, member, out)?;
    }
    Ok(())
}

// The codes of the references in a value.
#[cycle(refs)]
pub(crate) fn put_refs(seed: &Seed, val: &Val, out: &mut Vec<u64>) -> Result<(), NoMemory>
    ensures { OnOk result (out.new.items ≡ out.old.items ++ refs seed.now (tree val.now)) }
{
    match val {
        Val::List(items) => put_item_refs(seed, items, out),
        Val::Obj(object) => {
            put_own_ref(seed, object, out)?;
            put_field_refs(seed, object, out)
        }
        _ => Ok(()),
    }
}

#[cycle(refs)]
fn put_item_refs(seed: &Seed, items: &Vec<Val>, out: &mut Vec<u64>) -> Result<(), NoMemory>
    ensures { OnOk result (out.new.items
        ≡ out.old.items ++ trees_refs seed.now (trees (list_tree items.now.items))) }
{
    for item in items {
        put_refs(seed, item, out)?;
    }
    Ok(())
}

#[cycle(refs)]
fn put_field_refs(seed: &Seed, object: &Fields, out: &mut Vec<u64>) -> Result<(), NoMemory>
    ensures { OnOk result (out.new.items
        ≡ out.old.items ++ pairs_refs seed.now (fields object.now)) }
{
    for (_, member) in object.pairs.iter() {
        put_refs(seed, member, out)?;
    }
    Ok(())
}

// The code of the text that an object has as `_ref`.
fn put_own_ref(seed: &Seed, object: &Fields, out: &mut Vec<u64>) -> Result<(), NoMemory>
    ensures { OnOk result (out.new.items
        ≡ out.old.items ++ own_refs seed.now (fields object.now)) }
{
    if let Some(target) = object.reference() {
        out.push(ref_code(seed, target))?;
    }
    Ok(())
}

/// Adds to a list the codes of the keys of a document that an index keeps: those of its references,
/// and those of the scalars at its attribute paths of at most four names and in the lists there.
/// `NoMemory` where the allocator has no room for them.
pub fn put_codes(seed: &Seed, doc: &Doc, out: &mut Vec<u64>) -> Result<(), NoMemory>
    ensures { OnOk result (out.new.items ≡ out.old.items
        ++ key_codes seed.now (document_of doc.now)) }
{
    put_refs(seed, doc.val(), out)?;
    put_inside(MOST_NAMES, start(seed), doc.val(), out)
}

/// The codes of the keys of a document that an index keeps, as [`put_codes`] adds them. `NoMemory`
/// where the allocator has no room for them.
pub fn codes_of(alloc: Global, seed: &Seed, doc: &Doc) -> Result<Vec<u64>, NoMemory>
    ensures { IfOk result (λ cs. cs.items ≡ key_codes seed.now (document_of doc.now)) }
{
    let mut out = Vec::with_capacity(alloc, USUAL_CODES)?;
    put_codes(seed, doc, &mut out)?;
    Ok(out)
}
