//! Items put into a list, beside the elements that a step selects or in their stead.
ghost use Rattle.std.specs.Prelude.{◌≡◌, ◌++◌, ◌∷◌, [], true, suc, set, min, take, drop, cond, IfOk, OnOk, option_map};
ghost use Rattle.std.specs.Option.{option_to_list};
ghost use Rattle.cs_value.specs.View.{tree, list_tree};
ghost use Rattle.cs_jsonmatch.specs.View.{locations, item_of, items_of, step_of, path};
ghost use Rattle.cs_alter.specs.Inserted.{positions as positions_of, last, by_matched, unmatched};
ghost use Rattle.cs_alter.specs.Insertions.{is_end as is_end_of, takes, put_in, unmarked, Marks};
ghost use Rattle.cs_alter.specs.Alterations.{side as side_of, sole, inserted_by};

use crate::alteration::{Insertion, Side};
use cs_jsonmatch::{Item, Items, JsonPath, Part, Place, Step};
use cs_value::{NoMemory, Val};
use std::alloc::Global;

fn begins_at(place: &Place) -> Option<usize>
    ensures { option_to_list result ≡ positions_of (place.now.parts.items ∷ []) }
{
    let Some(part) = place.parts.first() else {
        return None;
    };
    match part {
        Part::Pos(index) => Some(*index),
        Part::Name(_) => None,
    }
}

fn push_some(found: &mut Vec<usize>, index: Option<usize>) -> Result<(), NoMemory>
    ensures { OnOk result (found.new.items ≡ found.old.items ++ option_to_list index) }
{
    if let Some(index) = index {
        found.push(index)?;
    }
    Ok(())
}

// The positions that the places begin with.
fn positions(alloc: Global, places: &[Place]) -> Result<Vec<usize>, NoMemory>
    ensures { IfOk result (λ ks. ks.items ≡ positions_of (locations places.now)) }
{
    let mut found = Vec::new(alloc);
    for place in places {
        push_some(&mut found, begins_at(place))?;
    }
    Ok(found)
}

fn mark(marks: &mut Vec<bool>, position: usize)
    ensures { marks.new.items ≡ set marks.old.items position true }
{
    if position < marks.len() {
        marks[position] = true;
    }
}

// Which of so many positions are among these.
fn marked(alloc: Global, count: usize, positions: &[usize]) -> Result<Vec<bool>, NoMemory>
    ensures { IfOk result (λ marks. Marks count positions.now marks.items) }
{
    let mut marks = Vec::new(alloc);
    marks.resize(count, false)?;
    for position in positions {
        mark(&mut marks, *position);
    }
    Ok(marks)
}

/// Copies of the values, in their order. `NoMemory` where the allocator has no room for them.
pub fn copy_all(alloc: Global, items: &[Val]) -> Result<Vec<Val>, NoMemory>
    ensures { IfOk result (λ copies. list_tree copies.items ≡ list_tree items.now) }
{
    let mut copies = Vec::new(alloc);
    for item in items {
        copies.push(item.copy(alloc)?)?;
    }
    Ok(copies)
}

// The position, or the end where it lies behind that.
fn within(position: usize, count: usize) -> usize
    ensures { result ≡ min position count }
{
    if position < count { position } else { count }
}

// The items, with copies of the new ones before the position, or at the end.
fn put_at(alloc: Global, items: &mut Vec<Val>, position: usize, new: &[Val]) -> Result<(), NoMemory>
    ensures { OnOk result (list_tree items.new.items
        ≡ take position (list_tree items.old.items) ++ list_tree new.now
        ++ drop position (list_tree items.old.items)) }
{
    let mut copies = copy_all(alloc, new)?;
    let at = within(position, items.len());
    let mut rest = items.split_off(at)?;
    items.append(&mut copies)?;
    items.append(&mut rest)?;
    Ok(())
}

fn push_unless(marked: bool, item: Val, items: &mut Vec<Val>) -> Result<(), NoMemory>
    ensures { OnOk result (items.new.items ≡ items.old.items ++ cond marked [] (item ∷ [])) }
{
    if !marked {
        items.push(item)?;
    }
    Ok(())
}

// Adds those of the rest that are not marked.
fn push_unmarked(items: &mut Vec<Val>, rest: Vec<Val>, marks: &[bool]) -> Result<(), NoMemory>
    ensures { OnOk result (items.new.items ≡ items.old.items ++ unmarked marks.now rest.items) }
{
    let mut left = marks;
    for item in rest {
        let Some((marked, more)) = left.split_first() else {
            return Ok(());
        };
        push_unless(*marked, item, items)?;
        left = more;
    }
    Ok(())
}

// The items without those at the positions, and with copies of the new ones where the first was.
fn put_instead(
    alloc: Global,
    items: &mut Vec<Val>,
    first: usize,
    positions: &[usize],
    new: &[Val],
) -> Result<(), NoMemory>
    ensures { OnOk result (list_tree items.new.items
        ≡ take first (list_tree items.old.items) ++ list_tree new.now
        ++ unmatched positions.now first (drop first (list_tree items.old.items))) }
{
    let marks = marked(alloc, items.len(), positions)?;
    let mut copies = copy_all(alloc, new)?;
    let at = within(first, items.len());
    let rest = items.split_off(at)?;
    items.append(&mut copies)?;
    push_unmarked(items, rest, &marks[at..])
}

// The only one of the items.
fn only(items: &Items) -> Option<&Item>
    ensures { option_map (λ i. item_of i.now) result ≡ sole (items_of items.now) }
{
    match items {
        Items::One(item) => Some(item),
        Items::Many(items) => {
            if items.len() == 1 {
                items.first()
            } else {
                None
            }
        }
    }
}

// Whether the side of the item is the end of an empty list.
fn is_end(side: Side, item: &Item) -> bool
    ensures { result ≡ is_end_of (side_of side) (item_of item.now) }
{
    let Item::Position(position) = item else {
        return false;
    };
    match side {
        Side::Before => *position == 0,
        Side::After => *position == -1,
        Side::Replace => false,
    }
}

// Whether an empty list takes items by the step.
fn empty_takes(side: Side, step: &Step) -> bool
    ensures { result ≡ takes (side_of side) (sole (items_of step.now.items)) }
{
    match only(&step.items) {
        Some(item) => is_end(side, item),
        None => false,
    }
}

// Copies of the new items, where an empty list takes them.
fn put_into_empty(
    alloc: Global,
    items: &mut Vec<Val>,
    takes: bool,
    new: &[Val],
) -> Result<(), NoMemory>
    requires { items.old.items ≡ [] }
    ensures { OnOk result (list_tree items.new.items ≡ cond takes (list_tree new.now) []) }
{
    if takes {
        *items = copy_all(alloc, new)?;
    }
    Ok(())
}

fn last_of(first: usize, more: &[usize]) -> usize
    ensures { result ≡ last first more.now }
{
    let mut found = first;
    for position in more {
        found = *position;
    }
    found
}

// The position behind this one, or the end.
fn behind(position: usize, count: usize) -> usize
    ensures { result ≡ min (suc position) count }
{
    if position < count {
        position + 1
    } else {
        count
    }
}

// Puts the new items beside the elements at the positions, or in their stead.
fn put_beside(
    alloc: Global,
    items: &mut Vec<Val>,
    side: Side,
    positions: &[usize],
    new: &[Val],
) -> Result<(), NoMemory>
    ensures { OnOk result (list_tree items.new.items
        ≡ by_matched positions.now (side_of side) (list_tree new.now)
        (list_tree items.old.items)) }
{
    let Some((first, more)) = positions.split_first() else {
        return Ok(());
    };
    match side {
        Side::Before => put_at(alloc, items, *first, new),
        Side::After => {
            let position = behind(last_of(*first, more), items.len());
            put_at(alloc, items, position, new)
        }
        Side::Replace => put_instead(alloc, items, *first, positions, new),
    }
}

fn insert_items(
    alloc: Global,
    items: &mut Vec<Val>,
    positions: &[usize],
    step: &Step,
    insertion: &Insertion,
) -> Result<(), NoMemory>
    ensures { OnOk result (list_tree items.new.items
        ≡ put_in (side_of insertion.now.side) (items_of step.now.items) positions.now
        (list_tree insertion.now.items.items) (list_tree items.old.items)) }
{
    if items.is_empty() {
        let takes = empty_takes(insertion.side, step);
        return put_into_empty(alloc, items, takes, &insertion.items);
    }
    put_beside(alloc, items, insertion.side, positions, &insertion.items)
}

// The only step of the path.
fn only_step(steps: &JsonPath) -> Option<&Step>
    ensures { option_map (λ s. step_of s.now) result ≡ sole (path steps.now) }
{
    if steps.steps.len() == 1 {
        steps.steps.first()
    } else {
        None
    }
}

// Puts the items into the value, where it is a list.
pub(crate) fn insert_here(
    alloc: Global,
    val: &mut Val,
    insertion: &Insertion,
) -> Result<(), NoMemory>
    ensures { OnOk result (tree val.new ≡ inserted_by (side_of insertion.now.side)
        (path insertion.now.last) (list_tree insertion.now.items.items) (tree val.old)) }
{
    let Some(step) = only_step(&insertion.last) else {
        return Ok(());
    };
    let places = insertion.last.places(alloc, val)?;
    let positions = positions(alloc, &places)?;
    if let Val::List(items) = val {
        return insert_items(alloc, items, &positions, step, insertion);
    }
    Ok(())
}
