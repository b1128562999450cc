//! Elements beside their keys, and how two of them are compared.
ghost use Rattle.std.specs.Prelude.{◌≡◌, IfOk, map, option_map, slice_get, unwrap_or};
ghost use Rattle.std.specs.Ordering.{is_gt};
ghost use Rattle.cs_value.specs.Tree.{null};
ghost use Rattle.cs_value.specs.View.{tree};
ghost use Rattle.cs_ops.specs.Order.{total};
ghost use Rattle.cs_meaning.specs.Ordered.{compared, by_keys, ranks, sorted};
ghost use Rattle.cs_parts.specs.Parts.{item};
ghost use Rattle.cs_order.specs.Ranked.{ranked};

use cs_ops::total;
use cs_parts::{Item, push};
use cs_value::{NoMemory, Val};
use std::alloc::Global;
use std::cmp::Ordering;

/// An element beside its keys, which are found once. A key that is lent is compared where it lies.
#[derive(Drop)]
pub struct Ranked<'k, 's> {
    pub by: Vec<Item<'k>>,
    pub item: Item<'s>,
}

// Two keys under the total order; one that is not there is null.
fn total_or_null(x: Option<&Val>, y: Option<&Val>) -> Ordering
    ensures { result ≡ total (unwrap_or (option_map (λ v. tree v.now) x.entry) null)
        (unwrap_or (option_map (λ v. tree v.now) y.entry) null) }
{
    let none = Val::Null;
    match x {
        Some(x) => match y {
            Some(y) => total(x, y),
            None => total(x, &none),
        },
        None => match y {
            Some(y) => total(&none, y),
            None => Ordering::Equal,
        },
    }
}

/// How two keys compare under the total order, and the other way round where the key is
/// descending. One that is not there is null.
pub fn compare_keys(descending: bool, x: Option<&Val>, y: Option<&Val>) -> Ordering
    ensures { result ≡ compared descending
        (unwrap_or (option_map (λ v. tree v.now) x.entry) null)
        (unwrap_or (option_map (λ v. tree v.now) y.entry) null) }
{
    if descending {
        total_or_null(y, x)
    } else {
        total_or_null(x, y)
    }
}

/// The key at a place: `None` exactly where none is there.
#[tactic(auto, using(crate::proofs::Keys::item_at, crate::proofs::Keys::no_item_at))]
pub fn key_at<'v>(keys: &'v [Item<'_>], place: usize) -> Option<&'v Val>
    ensures { option_map (λ v. tree v.now) result ≡ slice_get (map item keys.now) place }
{
    Some(keys.get(place)?.val())
}

// By the first keys, ties by the second and so on.
fn by_keys(directions: &[bool], xs: &[Item<'_>], ys: &[Item<'_>]) -> Ordering
    ensures { result ≡ by_keys directions.now (map item xs.now) (map item ys.now) }
{
    let mut left = directions;
    let mut place = 0;
    while let Some((descending, later)) = left.split_first() {
        let order = compare_keys(*descending, key_at(xs, place), key_at(ys, place));
        match order {
            Ordering::Less => return Ordering::Less,
            Ordering::Greater => return Ordering::Greater,
            Ordering::Equal => {}
        }
        left = later;
        place += 1;
    }
    Ordering::Equal
}

/// Whether the first element stands above the second, which is to say behind it in the order.
pub fn is_above(directions: &[bool], x: &Ranked<'_, '_>, y: &Ranked<'_, '_>) -> bool
    ensures { result ≡ is_gt (ranks directions.now (ranked x.now) (ranked y.now)) }
{
    match by_keys(directions, &x.by, &y.by) {
        Ordering::Greater => true,
        _ => false,
    }
}

// The elements in ascending order of their keys, those that tie as they stood.
pub(crate) fn sorted<'k, 's>(
    list: Vec<Ranked<'k, 's>>,
    directions: &[bool],
) -> Result<Vec<Ranked<'k, 's>>, NoMemory>
    ensures { IfOk result (λ v. map ranked v.items
        ≡ sorted directions.now (map ranked list.entry.items)) }
{
    let mut out = list;
    match out.sort_by(
        |a: &Ranked<'_, '_>, b: &Ranked<'_, '_>| -> Ordering
            ensures { result ≡ ranks directions.entry.now (ranked a.now) (ranked b.now) }
        { by_keys(directions, &a.by, &b.by) },
    ) {
        Ok(()) => Ok(out),
        Err(_) => Err(NoMemory),
    }
}

/// The elements without their keys.
pub fn items_of<'s>(alloc: Global, list: Vec<Ranked<'_, 's>>) -> Result<Vec<Item<'s>>, NoMemory>
    ensures { IfOk result (λ v. map item v.items
        ≡ map (λ x. x.item) (map ranked list.entry.items)) }
{
    let mut out = Vec::with_capacity(alloc, list.len())?;
    for one in list {
        let Ranked { by: _keys, item } = one;
        push(&mut out, item)?;
    }
    Ok(out)
}

/// The keys, copied where they are lent.
pub fn owned<'k>(alloc: Global, keys: Vec<Item<'_>>) -> Result<Vec<Item<'k>>, NoMemory>
    ensures { IfOk result (λ v. map item v.items ≡ map item keys.entry.items) }
{
    let mut out = Vec::with_capacity(alloc, keys.len())?;
    for key in keys {
        push(&mut out, Item::Made(key.into_val(alloc)?))?;
    }
    Ok(out)
}
