//! Which members of a value an item selects.
ghost use Rattle.std.specs.Prelude.{◌≡◌, option_map, ℕ, map};
ghost use Rattle.std.specs.List.{list_any};
ghost use Rattle.cs_value.specs.Tree.{Tree};
ghost use Rattle.cs_value.specs.View.{tree};
ghost use Rattle.cs_jsonmatch.specs.Places.{is_at, bound_within, stands, met, selects};
ghost use Rattle.cs_value.specs.Words.{followed};
ghost use Rattle.cs_jsonmatch.specs.View.{item_of, items_of, part_of};
ghost use Rattle.cs_jsonmatch.specs.declared.places.Part.TheVariants.{Pos, Name};

use crate::path::{Comparison, Item, Items, Step, Test};
use crate::places::Key;
use cs_ops::{equal, partial};
use cs_value::{Txt, Val};

fn is_at(wanted: i64, count: usize, here: usize) -> bool
    ensures { result ≡ is_at wanted count here }
{
    if wanted >= 0 {
        wanted as u64 == here as u64
    } else {
        match count.checked_sub(here) {
            Some(left) => left as u64 == wanted.unsigned_abs(),
            None => false,
        }
    }
}

fn bound_within(end: i64, count: usize) -> usize
    ensures { result ≡ bound_within end count }
{
    if end >= 0 {
        count.min(end as usize)
    } else {
        count.saturating_sub(end.unsigned_abs() as usize)
    }
}

fn stands_so(comparison: Comparison, val: &Val, constant: &Val) -> bool
    ensures { result ≡ stands comparison (tree val.now) (tree constant.now) }
{
    match comparison {
        Comparison::Equal => equal(val, constant),
        Comparison::NotEqual => !equal(val, constant),
        Comparison::Less => matches!(partial(val, constant), Some(order) if order.is_lt()),
        Comparison::AtMost => matches!(partial(val, constant), Some(order) if order.is_le()),
        Comparison::Greater => matches!(partial(val, constant), Some(order) if order.is_gt()),
        Comparison::AtLeast => matches!(partial(val, constant), Some(order) if order.is_ge()),
    }
}

fn follow_names<'v>(val: &'v Val, names: &[Txt]) -> Option<&'v Val>
    ensures { option_map (λ v. tree v.now) result ≡ followed names.now (tree val.now) }
{
    let mut here = val;
    for name in names {
        let Some(next) = here.field(name.as_str()) else {
            return None;
        };
        here = next;
    }
    Some(here)
}

fn meets(test: &Test, val: &Val) -> bool
    ensures { result ≡ met test.now.comparison (tree test.now.constant)
        (followed test.now.names.items (tree val.now)) }
{
    let Some(found) = follow_names(val, &test.names) else {
        return false;
    };
    stands_so(test.comparison, found, &test.constant)
}

fn selects_at(item: &Item, count: usize, here: usize, val: &Val) -> bool
    ensures { result ≡ selects count (Pos here) (tree val.now) (item_of item.now) }
{
    match item {
        Item::Position(wanted) => is_at(*wanted, count, here),
        Item::Range(from, to) => {
            let low = match from {
                Some(end) => bound_within(*end, count),
                None => 0,
            };
            let high = match to {
                Some(end) => bound_within(*end, count),
                None => count,
            };
            low <= here && here < high
        }
        Item::Every => true,
        Item::Named(_) => false,
        Item::Meets(test) => meets(test, val),
    }
}

fn selects_named(item: &Item, name: &str) -> bool
    ensures { (count : ℕ) (t : Tree) →
        result ≡ selects count (Name name.now) t (item_of item.now) }
{
    match item {
        Item::Named(wanted) => wanted.as_str() == name,
        _ => matches!(item, Item::Every),
    }
}

fn selects_key(item: &Item, count: usize, key: Key<'_>, val: &Val) -> bool
    ensures { result ≡ selects count (part_of key.entry) (tree val.now) (item_of item.now) }
{
    match key {
        Key::Name(name) => selects_named(item, name),
        Key::Pos(here) => selects_at(item, count, here, val),
    }
}

fn some_selects(items: &[Item], count: usize, key: Key<'_>, val: &Val) -> bool
    ensures { result ≡ list_any (selects count (part_of key.entry) (tree val.now))
        (map item_of items.now) }
{
    for item in items {
        if selects_key(item, count, key, val) {
            return true;
        }
    }
    false
}

pub(crate) fn step_selects(step: &Step, count: usize, key: Key<'_>, val: &Val) -> bool
    ensures { result ≡ list_any (selects count (part_of key.entry) (tree val.now))
        (items_of step.now.items) }
{
    match &step.items {
        Items::One(item) => selects_key(item, count, key, val),
        Items::Many(items) => some_selects(items, count, key, val),
    }
}
