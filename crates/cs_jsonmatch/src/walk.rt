//! One walk over a value, to the places that a path selects.
ghost use Rattle.std.specs.Prelude.{◌≡◌, ◌++◌, ◌∷◌, [], map, length, take, false, unwrap_or, slice_get, IfOk, OnOk, cond};
ghost use Rattle.std.specs.List.{list_any};
ghost use Rattle.cs_value.specs.Tree.{list, object as object_of, trees};
ghost use Rattle.cs_value.specs.View.{tree, list_tree, fields};
ghost use Rattle.cs_jsonmatch.specs.Places.{selects, trails, item_trails, pair_trails, places as places_of};
ghost use Rattle.cs_jsonmatch.specs.View.{path_of, part_of, locations};
ghost use Rattle.cs_jsonmatch.specs.Walk.{next as next_waiting, reached};

use crate::path::Step;
use crate::places::{Key, Part, Place, copy_parts};
use crate::select::step_selects;
use cs_value::{Fields, NoMemory, Txt, Val};
use std::alloc::Global;

// Whether a rest of the path waits below a part.
fn some_wait_below(steps: &[Step], waiting: &[bool], count: usize, key: Key<'_>, val: &Val) -> bool
    ensures { result ≡ list_any (λ b. b) (next_waiting
        (selects count (part_of key.entry) (tree val.now)) false waiting.now (path_of steps.now)) }
{
    let mut selected = false;
    for (waits, step) in waiting.iter().zip(steps) {
        if selected || (*waits && step.deep) {
            return true;
        }
        selected = *waits && step_selects(step, count, key, val);
    }
    selected
}

// Which rests of the path wait below a part: one more than above at most.
fn next(
    alloc: Global,
    steps: &[Step],
    waiting: &[bool],
    count: usize,
    key: Key<'_>,
    val: &Val,
) -> Result<Vec<bool>, NoMemory>
    ensures { IfOk result (λ v. v.items
        ≡ next_waiting (selects count (part_of key.entry) (tree val.now)) false waiting.now
        (path_of steps.now)) }
{
    let mut below = Vec::with_capacity(alloc, waiting.len() + 1)?;
    let mut here = false;
    for (waits, step) in waiting.iter().zip(steps) {
        below.push(here || (*waits && step.deep))?;
        here = *waits && step_selects(step, count, key, val);
    }
    below.push(here)?;
    Ok(below)
}

fn any_waits(waiting: &[bool]) -> bool
    ensures { result ≡ list_any (λ b. b) waiting.now }
{
    for b in waiting {
        if *b {
            return true;
        }
    }
    false
}

// Whether the path ends at a value where these rests wait.
fn path_ends(steps: &[Step], waiting: &[bool]) -> bool
    ensures { result ≡ unwrap_or (slice_get waiting.now (length steps.now)) false }
{
    waiting.get(steps.len()).copied().unwrap_or(false)
}

// Whether a rest waits that has a step.
fn goes_on(steps: &[Step], waiting: &[bool]) -> bool
    ensures { result ≡ list_any (λ b. b) (take (length steps.now) waiting.now) }
{
    any_waits(&waiting[..steps.len().min(waiting.len())])
}

// Adds the place where the path has ended there.
fn arrive(alloc: Global, ends: bool, above: &[Part], found: &mut Vec<Place>) -> Result<(), NoMemory>
    ensures { OnOk result (locations found.new.items
        ≡ locations found.old.items ++ cond ends (above.now ∷ []) []) }
{
    if ends {
        found.push(Place {
            parts: copy_parts(alloc, above)?,
        })?;
    }
    Ok(())
}

#[cycle(walk)]
fn walk(
    alloc: Global,
    steps: &[Step],
    waiting: &[bool],
    val: &Val,
    above: &mut Vec<Part>,
    found: &mut Vec<Place>,
) -> Result<(), NoMemory>
    ensures found { OnOk result (locations found.new.items ≡ locations found.old.items
        ++ reached above.old.items waiting.now (path_of steps.now) (tree val.now)
        (trails (tree val.now))) }
    ensures above { OnOk result (above.new.items ≡ above.old.items) }
{
    arrive(alloc, path_ends(steps, waiting), above, found)?;
    if !goes_on(steps, waiting) {
        return Ok(());
    }
    match val {
        Val::List(items) => walk_items(alloc, steps, waiting, items, above, found),
        Val::Obj(object) => walk_pairs(alloc, steps, waiting, object, above, found),
        Val::Null => Ok(()),
        Val::Bool(_) => Ok(()),
        Val::Num(_) => Ok(()),
        Val::Text(_) => Ok(()),
    }
}

#[cycle(walk)]
fn walk_items(
    alloc: Global,
    steps: &[Step],
    waiting: &[bool],
    items: &Vec<Val>,
    above: &mut Vec<Part>,
    found: &mut Vec<Place>,
) -> Result<(), NoMemory>
    ensures found { OnOk result (locations found.new.items ≡ locations found.old.items
        ++ reached above.old.items waiting.now (path_of steps.now)
        (list (trees (list_tree items.now.items)))
        (item_trails 0 (trees (list_tree items.now.items)))) }
    ensures above { OnOk result (above.new.items ≡ above.old.items) }
{
    let count = items.len();
    for (k, item) in items.iter().enumerate() {
        if !some_wait_below(steps, waiting, count, Key::Pos(k), item) {
            continue;
        }
        let below = next(alloc, steps, waiting, count, Key::Pos(k), item)?;
        above.push(Part::Pos(k))?;
        walk(alloc, steps, &below, item, above, found)?;
        drop(above.pop());
    }
    Ok(())
}

#[cycle(walk)]
fn walk_pairs(
    alloc: Global,
    steps: &[Step],
    waiting: &[bool],
    object: &Fields,
    above: &mut Vec<Part>,
    found: &mut Vec<Place>,
) -> Result<(), NoMemory>
    ensures found { OnOk result (locations found.new.items ≡ locations found.old.items
        ++ reached above.old.items waiting.now (path_of steps.now) (object_of (fields object.now))
        (pair_trails (fields object.now))) }
    ensures above { OnOk result (above.new.items ≡ above.old.items) }
{
    for (name, member) in object.pairs.iter() {
        if !some_wait_below(steps, waiting, 0, Key::Name(name), member) {
            continue;
        }
        let below = next(alloc, steps, waiting, 0, Key::Name(name), member)?;
        above.push(Part::Name(Txt::copy_of(alloc, name)?))?;
        walk(alloc, steps, &below, member, above, found)?;
        drop(above.pop());
    }
    Ok(())
}

// The places inside a value to which the parts lead, by a walk over it.
pub(crate) fn walked(
    alloc: Global,
    steps: &[Step],
    val: &Val,
    above: Vec<Part>,
) -> Result<Vec<Place>, NoMemory>
    ensures { IfOk result (λ found. locations found.items
        ≡ map (λ l. above.items ++ l) (places_of (path_of steps.now) (tree val.now))) }
{
    let mut above = above;
    let mut found = Vec::new(alloc);
    walk(alloc, steps, &[true], val, &mut above, &mut found)?;
    Ok(found)
}
