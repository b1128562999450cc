//! Elements and slices of a list: borrowed where the list is, and moved out of one that was made.
ghost use Rattle.std.specs.Prelude.{◌≡◌, ◌≤◌, IfOk, Some, map, length};
ghost use Rattle.cs_value.specs.View.{tree};
ghost use Rattle.cs_syntax.specs.View.{expression};
ghost use Rattle.cs_plan.specs.Steps.{position_of as position_in};
ghost use Rattle.cs_parts.specs.Parts.{got};
ghost use Rattle.cs_parts.specs.Positions.{element_in};
ghost use Rattle.cs_meaning.specs.Positions.{behind, elements_between, clamped, counted, element, place_in, sliced};

use crate::answer::Got;
use crate::brackets::position_of;
use crate::item::push;
use cs_syntax::Expr;
use cs_value::{NoMemory, Val};
use std::alloc::Global;

// The place of an element of a list of this length, where one is there.
fn place_in(length: usize, place: i64) -> Option<usize>
    ensures { result ≡ place_in length (counted length place) }
{
    if place < 0 {
        length.checked_sub(place.unsigned_abs() as usize)
    } else if (place as usize) < length {
        Some(place as usize)
    } else {
        None
    }
}

/// The element at a place, null where none is there or the number has no value, and of anything but
/// a list.
pub fn element<'s>(whole: Got<'s>, place: Option<i64>) -> Got<'s>
    ensures { got result ≡ element place (got whole.entry) }
{
    match place {
        Some(place) => element_at(whole, place),
        None => Got::Whole(Val::Null),
    }
}

// The same of a number that has a value.
#[tactic(auto, using(crate::proofs::Sets::element))]
fn element_at<'s>(whole: Got<'s>, place: i64) -> Got<'s>
    ensures { got result ≡ element (Some place) (got whole.entry) }
{
    match whole {
        Got::Part(Val::List(vals)) => lent_at(vals, place_in(vals.len(), place)),
        Got::Part(_) => Got::Whole(Val::Null),
        Got::Parts(parts) => {
            let at = place_in(parts.as_slice().len(), place);
            part_at(parts, at)
        }
        Got::Whole(Val::List(vals)) => {
            let at = place_in(vals.as_slice().len(), place);
            made_at(vals, at)
        }
        Got::Whole(_) => Got::Whole(Val::Null),
    }
}

// The element of a borrowed list.
#[tactic(auto, using(crate::proofs::Sets::found))]
fn lent_at<'s>(vals: &'s [Val], at: Option<usize>) -> Got<'s>
    ensures { got result ≡ element_in (map tree vals.now) at }
{
    match at {
        Some(at) if at < vals.len() => Got::Part(&vals[at]),
        _ => Got::Whole(Val::Null),
    }
}

// The element of a list of borrowed elements.
#[tactic(auto, using(crate::proofs::Sets::found))]
fn part_at<'s>(parts: Vec<&'s Val>, at: Option<usize>) -> Got<'s>
    ensures { got result ≡ element_in (map (λ r. tree r.now) parts.entry.items) at }
{
    match at {
        Some(at) if at < parts.len() => Got::Part(parts[at]),
        _ => Got::Whole(Val::Null),
    }
}

// The element of a list that was made, moved out of it.
#[tactic(auto, using(crate::proofs::Sets::found))]
fn made_at<'s>(vals: Vec<Val>, at: Option<usize>) -> Got<'s>
    ensures { got result ≡ element_in (map tree vals.items) at }
{
    let mut left = vals;
    match at {
        Some(at) if at < left.len() => Got::Whole(left.swap_remove(at)),
        _ => Got::Whole(Val::Null),
    }
}

// A slice between two positions, the second of which belongs to it where it is closed.
#[derive(Clone, Copy)]
struct Slice {
    from: i64,
    to: i64,
    closed: bool,
}

impl Slice {
    // The place of its first element in a list of this length.
    fn start(self, length: usize) -> usize
        ensures { result ≡ clamped length (counted length self.from) }
    {
        if self.from < 0 {
            length.saturating_sub(self.from.unsigned_abs() as usize)
        } else {
            length.min(self.from as usize)
        }
    }

    // The place behind its last element in a list of this length.
    fn end(self, length: usize) -> usize
        ensures place { result ≡ clamped length (behind self.closed (counted length self.to)) }
        ensures inside { result ≤ length }
    {
        let more = if self.closed { 1 } else { 0 };
        if self.to < 0 {
            length.saturating_sub(self.to.unsigned_abs() as usize - more)
        } else if (self.to as usize) < length {
            self.to as usize + more
        } else {
            length
        }
    }
}

/// A slice of a list: `[from..to]` where it is `closed`, else `[from...to]`. Null of anything but a
/// list, and where an end is no position or a number that the profile refuses.
#[tactic(auto, using(crate::proofs::Trees::tree_of_null))]
pub fn sliced<'s>(
    alloc: Global,
    whole: Got<'s>,
    from: &Expr,
    to: &Expr,
    closed: bool,
) -> Result<Got<'s>, NoMemory>
    ensures { IfOk result (λ g. got g ≡ sliced (position_in (expression from.now))
        (position_in (expression to.now)) closed (got whole.entry)) }
{
    match (position_of(from), position_of(to)) {
        (Some(Some(from)), Some(Some(to))) => cut(alloc, whole, Slice { from, to, closed }),
        _ => Ok(Got::Whole(Val::Null)),
    }
}

// What the slice leaves of a value.
#[tactic(auto, using(crate::proofs::Sets::slice))]
fn cut<'s>(alloc: Global, whole: Got<'s>, slice: Slice) -> Result<Got<'s>, NoMemory>
    ensures { IfOk result (λ g. got g ≡ sliced (Some (Some slice.from)) (Some (Some slice.to))
        slice.closed (got whole.entry)) }
{
    match whole {
        Got::Part(Val::List(vals)) => Ok(Got::Parts(cut_lent(alloc, vals, slice)?)),
        Got::Part(_) => Ok(Got::Whole(Val::Null)),
        Got::Parts(parts) => Ok(Got::Parts(cut_items(parts, slice)?)),
        Got::Whole(Val::List(vals)) => Ok(Got::Whole(Val::List(cut_items(vals, slice)?))),
        Got::Whole(_) => Ok(Got::Whole(Val::Null)),
    }
}

// The slice of a borrowed list, whose elements are lent.
#[tactic(auto, using(crate::proofs::Slices::lent_between))]
fn cut_lent<'s>(alloc: Global, vals: &'s [Val], slice: Slice) -> Result<Vec<&'s Val>, NoMemory>
    ensures { IfOk result (λ v. map (λ r. tree r.now) v.items
        ≡ elements_between slice.from slice.to slice.closed (map tree vals.now)) }
{
    let end = slice.end(vals.len());
    let start = slice.start(vals.len()).min(end);
    lend(alloc, &vals[start..end])
}

// References to the values.
fn lend<'s>(alloc: Global, vals: &'s [Val]) -> Result<Vec<&'s Val>, NoMemory>
    ensures { IfOk result (λ v. map (λ r. tree r.now) v.items ≡ map tree vals.now) }
{
    let mut out = Vec::new(alloc);
    for val in vals {
        push(&mut out, val)?;
    }
    Ok(out)
}

// The items of the slice.
#[tactic(auto, using(crate::proofs::Slices::items_between))]
fn cut_items<T: Drop>(items: Vec<T>, slice: Slice) -> Result<Vec<T>, NoMemory>
    ensures { IfOk result (λ v. v.items
        ≡ elements_between slice.from slice.to slice.closed items.items) }
{
    let end = slice.end(items.len());
    let start = slice.start(items.len()).min(end);
    let mut kept = items;
    kept.truncate(end);
    match kept.split_off(start) {
        Ok(tail) => Ok(tail),
        Err(_) => Err(NoMemory),
    }
}
