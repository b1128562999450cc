//! Answers and their elements.
ghost use Rattle.std.specs.Prelude.{◌≡◌, IfOk, map, option_map, IsTrue, OnOk, ◌++◌, ◌∷◌, []};
ghost use Rattle.std.specs.List.{list_all};
ghost use Rattle.cs_meaning.specs.Joining.{flat_elements};
ghost use Rattle.cs_value.specs.Words.{as_list, list_of};
ghost use Rattle.cs_value.specs.View.{tree};
ghost use Rattle.cs_parts.specs.Parts.{got, item, is_lent};

use crate::answer::Got;
use crate::item::{Item, push};
use cs_value::{NoMemory, Val};
use std::alloc::Global;

/// The elements of a list, `None` where the value is none.
#[tactic(auto, using(crate::proofs::Sets::elements))]
pub fn elements<'s>(alloc: Global, whole: Got<'s>) -> Result<Option<Vec<Item<'s>>>, NoMemory>
    ensures { IfOk result (λ o. option_map (λ v. map item v.items) o ≡ as_list (got whole.entry)) }
{
    match whole {
        Got::Part(Val::List(vals)) => Ok(Some(lend_all(alloc, vals)?)),
        Got::Part(_) => Ok(None),
        Got::Parts(parts) => Ok(Some(lend_parts(alloc, parts)?)),
        Got::Whole(Val::List(vals)) => Ok(Some(make_all(alloc, vals)?)),
        Got::Whole(_) => Ok(None),
    }
}

/// Borrowed values as elements. `NoMemory` where the allocator has no room for them.
pub fn lend_all<'s>(alloc: Global, vals: &'s [Val]) -> Result<Vec<Item<'s>>, NoMemory>
    ensures { IfOk result (λ v. map item v.items ≡ map tree vals.now) }
{
    let mut out = Vec::with_capacity(alloc, vals.len())?;
    for val in vals {
        push(&mut out, Item::Lent(val))?;
    }
    Ok(out)
}

// Borrowed values as elements.
fn lend_parts<'s>(alloc: Global, parts: Vec<&'s Val>) -> Result<Vec<Item<'s>>, NoMemory>
    ensures { IfOk result (λ v. map item v.items ≡ map (λ r. tree r.now) parts.entry.items) }
{
    let mut out = Vec::with_capacity(alloc, parts.len())?;
    for part in parts {
        push(&mut out, Item::Lent(part))?;
    }
    Ok(out)
}

// The values of a list that was made, moved.
fn make_all<'s>(alloc: Global, vals: Vec<Val>) -> Result<Vec<Item<'s>>, NoMemory>
    ensures { IfOk result (λ v. map item v.items ≡ map tree vals.items) }
{
    let mut out = Vec::with_capacity(alloc, vals.len())?;
    for val in vals {
        push(&mut out, Item::Made(val))?;
    }
    Ok(out)
}

/// The list of these elements, borrowed where all of them are.
#[tactic(auto, using(crate::proofs::Trees::tree_of_list))]
pub fn gather<'s>(alloc: Global, items: Vec<Item<'s>>) -> Result<Got<'s>, NoMemory>
    ensures { IfOk result (λ g. got g ≡ list_of (map item items.entry.items)) }
{
    if all_lent(&items) {
        Ok(Got::Parts(parts_of(alloc, items)?))
    } else {
        Ok(Got::Whole(Val::List(vals_of(alloc, items)?)))
    }
}

// Whether each element is borrowed.
fn all_lent(items: &[Item<'_>]) -> bool
    ensures { result ≡ list_all is_lent items.now }
{
    for i in items {
        match i {
            Item::Lent(_) => {}
            Item::Made(_) => return false,
        }
    }
    true
}

// The borrowed values of elements that are all borrowed.
fn parts_of<'s>(alloc: Global, items: Vec<Item<'s>>) -> Result<Vec<&'s Val>, NoMemory>
    requires { IsTrue (list_all is_lent items.items) }
    ensures { IfOk result (λ v. map (λ r. tree r.now) v.items ≡ map item items.entry.items) }
{
    let mut out = Vec::with_capacity(alloc, items.len())?;
    for i in items {
        match i {
            Item::Lent(val) => push(&mut out, val)?,
            Item::Made(_) => unreachable!(),
        }
    }
    Ok(out)
}

// The values of elements, copied where they are borrowed.
fn vals_of(alloc: Global, items: Vec<Item<'_>>) -> Result<Vec<Val>, NoMemory>
    ensures { IfOk result (λ v. map tree v.items ≡ map item items.entry.items) }
{
    let mut out = Vec::with_capacity(alloc, items.len())?;
    for i in items {
        push(&mut out, i.into_val(alloc)?)?;
    }
    Ok(out)
}

impl<'s> Got<'s> {
    /// The value as one tree, copied where it is borrowed.
    #[tactic(auto, using(crate::proofs::Trees::tree_of_list))]
    pub fn into_val(self, alloc: Global) -> Result<Val, NoMemory>
        ensures { IfOk result (λ v. tree v ≡ got self.entry) }
    {
        match self {
            Got::Part(val) => val.copy(alloc),
            Got::Parts(parts) => Ok(Val::List(copy_parts(alloc, parts)?)),
            Got::Whole(val) => Ok(val),
        }
    }
}

// Copies of borrowed values.
fn copy_parts(alloc: Global, parts: Vec<&Val>) -> Result<Vec<Val>, NoMemory>
    ensures { IfOk result (λ v. map tree v.items ≡ map (λ r. tree r.now) parts.entry.items) }
{
    let mut out = Vec::with_capacity(alloc, parts.len())?;
    for part in parts {
        push(&mut out, part.copy(alloc)?)?;
    }
    Ok(out)
}

/// The answer as one element.
pub fn settle<'s>(alloc: Global, whole: Got<'s>) -> Result<Item<'s>, NoMemory>
    ensures { IfOk result (λ i. item i ≡ got whole.entry) }
{
    match whole {
        Got::Part(val) => Ok(Item::Lent(val)),
        Got::Parts(parts) => Ok(Item::Made(Got::Parts(parts).into_val(alloc)?)),
        Got::Whole(val) => Ok(Item::Made(val)),
    }
}

/// The elements of a list, or the value alone where it is no list.
#[tactic(auto, using(crate::proofs::Sets::flat_elements))]
pub fn flat_elements<'s>(alloc: Global, whole: Got<'s>) -> Result<Vec<Item<'s>>, NoMemory>
    ensures { IfOk result (λ v. map item v.items ≡ flat_elements (got whole.entry)) }
{
    match whole {
        Got::Part(Val::List(vals)) => lend_all(alloc, vals),
        Got::Part(val) => single(alloc, Item::Lent(val)),
        Got::Parts(parts) => lend_parts(alloc, parts),
        Got::Whole(Val::List(vals)) => make_all(alloc, vals),
        Got::Whole(val) => single(alloc, Item::Made(val)),
    }
}

// A list of the one element.
fn single<'s>(alloc: Global, only: Item<'s>) -> Result<Vec<Item<'s>>, NoMemory>
    ensures { IfOk result (λ v. v.items ≡ only.entry ∷ []) }
{
    let mut out = Vec::with_capacity(alloc, 1)?;
    push(&mut out, only)?;
    Ok(out)
}

/// The items of the second list after those of the first.
pub fn append<'s>(out: &mut Vec<Item<'s>>, more: Vec<Item<'s>>) -> Result<(), NoMemory>
    ensures { OnOk result (map item out.new.items ≡ map item out.old.items ++ map item
        more.entry.items) }
{
    for i in more {
        push(out, i)?;
    }
    Ok(())
}
