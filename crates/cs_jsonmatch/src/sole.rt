//! The places that a path selects. Its first steps are followed one by one as long as each selects
//! one member at most; only from the step on that may select several is the value walked.
ghost use Rattle.std.specs.Prelude.{ℕ, ◌≡◌, ◌<◌, ◌∷◌, [], false, nat_eq, option_map, IfOk, IfSome, MatchOption};
ghost use Rattle.cs_value.specs.Pairs.{find};
ghost use Rattle.cs_value.specs.Tree.{list, object as object_of, trees};
ghost use Rattle.cs_value.specs.Value.{Ascends};
ghost use Rattle.cs_value.specs.View.{tree, list_tree, fields};
ghost use Rattle.cs_jsonmatch.specs.Path.{Path, step as step_word};
ghost use Rattle.cs_jsonmatch.specs.Places.{is_at, places as places_of};
ghost use Rattle.cs_jsonmatch.specs.Sole.{sole_step, IsMember};
ghost use Rattle.cs_jsonmatch.specs.View.{item_of, step_of, path_of, path, part_of, locations};

use crate::path::{Item, Items, JsonPath, Step};
use crate::places::{Key, Part, Place};
use crate::walk::walked;
use cs_value::{Fields, NoMemory, Txt, Val};
use std::alloc::Global;

// A step that selects one member of a value at most: the attribute of a name, or the element at a
// position.
#[derive(Clone, Copy, Drop)]
pub(crate) enum Sole<'s> {
    Name(&'s Txt),
    Position(i64),
}

fn sole_item(item: &Item) -> Option<Sole<'_>>
    ensures { IfSome result (λ s. step_word false (item_of item.now ∷ []) ≡ sole_step s) }
{
    match item {
        Item::Named(name) => Some(Sole::Name(name)),
        Item::Position(position) => Some(Sole::Position(*position)),
        Item::Range(_, _) => None,
        Item::Every => None,
        Item::Meets(_) => None,
    }
}

fn sole_of(step: &Step) -> Option<Sole<'_>>
    ensures { IfSome result (λ s. step_of step.now ≡ sole_step s) }
{
    if step.deep {
        return None;
    }
    match &step.items {
        Items::One(item) => sole_item(item),
        Items::Many(_) => None,
    }
}

// The index of a position in a list of so many. It may lie behind the list's end.
fn index_of(position: i64, count: usize) -> Option<usize>
    ensures { MatchOption result ((k : ℕ) → k < count → is_at position count k ≡ false)
        (λ index. (k : ℕ) → is_at position count k ≡ nat_eq index k) }
{
    if position >= 0 {
        Some(position as usize)
    } else {
        count.checked_sub(position.unsigned_abs() as usize)
    }
}

fn element<'v, 's>(items: &'v Vec<Val>, sole: Sole<'s>) -> Option<(Key<'s>, &'v Val)>
    ensures { (ss : Path) →
        IsMember (list (trees (list_tree items.now.items))) sole.entry ss result }
{
    match sole {
        Sole::Name(_) => None,
        Sole::Position(position) => {
            let index = index_of(position, items.len())?;
            let found = items.get(index)?;
            Some((Key::Pos(index), found))
        }
    }
}

fn attribute<'v>(object: &'v Fields, name: &str) -> Option<&'v Val>
    ensures found { option_map (λ v. tree v.now) result ≡ find name.now (fields object.now) }
    ensures ascends { Ascends (fields object.now) }
{
    // This says that the names ascend, so that no other attribute has the name.
    let _count = object.pairs.len();
    object.get(name)
}

fn named<'v, 's>(object: &'v Fields, sole: Sole<'s>) -> Option<(Key<'s>, &'v Val)>
    ensures { (ss : Path) → IsMember (object_of (fields object.now)) sole.entry ss result }
{
    match sole {
        Sole::Position(_) => None,
        Sole::Name(name) => {
            let name = name.as_str();
            let found = attribute(object, name)?;
            Some((Key::Name(name), found))
        }
    }
}

// The one member that the step selects, with its part.
fn member<'v, 's>(val: &'v Val, sole: Sole<'s>) -> Option<(Key<'s>, &'v Val)>
    ensures { (ss : Path) → IsMember (tree val.now) sole.entry ss result }
{
    match val {
        Val::List(items) => element(items, sole),
        Val::Obj(object) => named(object, sole),
        Val::Null => None,
        Val::Bool(_) => None,
        Val::Num(_) => None,
        Val::Text(_) => None,
    }
}

// The part with a name of its own.
fn owned(alloc: Global, key: Key<'_>) -> Result<Part, NoMemory>
    ensures { IfOk result (λ part. part ≡ part_of key.entry) }
{
    match key {
        Key::Name(name) => Ok(Part::Name(Txt::copy_of(alloc, name)?)),
        Key::Pos(index) => Ok(Part::Pos(index)),
    }
}

fn only_place(alloc: Global, parts: Vec<Part>) -> Result<Vec<Place>, NoMemory>
    ensures { IfOk result (λ found. locations found.items ≡ parts.items ∷ []) }
{
    let mut found = Vec::with_capacity(alloc, 1)?;
    found.push(Place { parts })?;
    Ok(found)
}

// The places that the steps select in a value.
fn selected(alloc: Global, steps: &[Step], val: &Val) -> Result<Vec<Place>, NoMemory>
    ensures { IfOk result (λ found. locations found.items
        ≡ places_of (path_of steps.now) (tree val.now)) }
{
    let mut here = val;
    let mut above = Vec::new(alloc);
    for (index, step) in steps.iter().enumerate() {
        let Some(sole) = sole_of(step) else {
            return walked(alloc, &steps[index..], here, above);
        };
        let Some((key, next)) = member(here, sole) else {
            return Ok(Vec::new(alloc));
        };
        above.push(owned(alloc, key)?)?;
        here = next;
    }
    only_place(alloc, above)
}

impl JsonPath {
    /// The places of the value that the path selects, in document order, each once. It follows the
    /// steps before the first one that may select several members. Then it walks the value that it
    /// has come to once, and does not enter what no rest of the path can lead into: it keeps a flag
    /// for each rest, of which one more can wait at each level. `NoMemory` where the allocator has
    /// no room for the flags or for the places.
    pub fn places(&self, alloc: Global, val: &Val) -> Result<Vec<Place>, NoMemory>
        ensures { IfOk result (λ found. locations found.items
            ≡ places_of (path self.now) (tree val.now)) }
    {
        selected(alloc, &self.steps, val)
    }
}
