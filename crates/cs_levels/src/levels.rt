//! The open levels of a chain. A list whose elements go through a rest one by one waits here for
//! what becomes of them, so that a chain of any length takes no more of the stack.
ghost use Rattle.std.specs.Prelude.{◌≡◌, ◌++◌, IfOk, map};
ghost use Rattle.cs_value.specs.Words.{as_list};
ghost use Rattle.cs_parts.specs.Parts.{got, item};
ghost use Rattle.cs_levels.specs.Levels.{added, one_by_one, entering, level_list, reached_value, task_value, waiting, waiting_of, levels_waiting, reached_waiting, task_waiting, Ended, Kept, SameValue};
ghost use Rattle.std.specs.Vec.Iter.{into_iter_items};

use cs_parts::{Entrance, Got, Item, Kind, append, elements, flat_elements, gather, push, settle};
use cs_syntax::Step;
use cs_value::{NoMemory, Val};
use std::alloc::Global;
use std::vec::IntoIter;

/// What is left of a chain: its steps, and the kinds of their rests.
#[derive(Clone, Copy)]
pub struct Remaining<'s, 'k> {
    pub steps: &'s [Step],
    pub kinds: &'k [Kind],
}

/// How far a chain has come: to the end of a rest, or to a value that goes through a rest, or to a
/// list whose elements go on one by one. Lists among their results are joined, or stay elements.
#[derive(Drop)]
pub enum Reached<'s, 'k> {
    End(Got<'s>),
    Whole(Got<'s>, Remaining<'s, 'k>),
    Each(Got<'s>, bool, Remaining<'s, 'k>),
}

/// What is to be done next: nothing, or a value goes through a rest.
#[derive(Drop)]
pub enum Task<'s, 'k> {
    Done(Got<'s>),
    Go(Got<'s>, Remaining<'s, 'k>),
}

/// A list whose elements go through a rest: those that have yet to go, and what the others gave.
#[derive(Drop)]
pub struct Level<'s, 'k> {
    pub rest: Remaining<'s, 'k>,
    pub joins: bool,
    pub left: IntoIter<Item<'s>>,
    pub out: Vec<Item<'s>>,
}

/// How far a chain has come where this value enters a rest.
pub fn entering<'s, 'k>(
    entrance: Entrance,
    value: Got<'s>,
    rest: Remaining<'s, 'k>,
) -> Reached<'s, 'k>
    ensures { result ≡ entering entrance value.entry rest.entry }
{
    match entrance {
        Entrance::Whole => Reached::Whole(value, rest),
        Entrance::Mapped => Reached::Each(value, false, rest),
        Entrance::Flat => Reached::Each(value, true, rest),
    }
}

/// What is to be done next, where a chain has come this far.
pub fn next_task<'s, 'k>(
    alloc: Global,
    reached: Reached<'s, 'k>,
    levels: &mut Vec<Level<'s, 'k>>,
) -> Result<Task<'s, 'k>, NoMemory>
    ensures value { IfOk result (λ t. SameValue levels.old.items
        (λ r. reached_value r reached.entry) levels.new.items (λ r. task_value r t)) }
    ensures order { IfOk result (λ t. task_waiting t ++ levels_waiting levels.new.items
        ≡ reached_waiting reached.entry ++ levels_waiting levels.old.items) }
    ensures ended { IfOk result (λ t. Ended t levels.new.items) }
{
    match reached {
        Reached::End(value) => ascend(alloc, value, levels),
        Reached::Whole(value, rest) => Ok(Task::Go(value, rest)),
        Reached::Each(list, joins, rest) => match descend(alloc, list, joins, rest, levels)? {
            Task::Done(value) => ascend(alloc, value, levels),
            Task::Go(value, rest) => Ok(Task::Go(value, rest)),
        },
    }
}

// A list is opened: its first element is next, or what an empty list gives, or null of anything
// but a list.
fn descend<'s, 'k>(
    alloc: Global,
    list: Got<'s>,
    joins: bool,
    rest: Remaining<'s, 'k>,
    levels: &mut Vec<Level<'s, 'k>>,
) -> Result<Task<'s, 'k>, NoMemory>
    ensures value { IfOk result (λ t. SameValue levels.old.items
        (λ r. one_by_one joins (r rest.entry) (got list.entry)) levels.new.items
        (λ r. task_value r t)) }
    ensures order { IfOk result (λ t. task_waiting t ++ levels_waiting levels.new.items
        ≡ waiting_of rest.entry (as_list (got list.entry)) ++ levels_waiting levels.old.items) }
    ensures kept { IfOk result (λ t. Kept t levels.old.items levels.new.items) }
{
    let Some(items) = elements(alloc, list)? else {
        return Ok(Task::Done(Got::Whole(Val::Null)));
    };
    let level = Level {
        rest,
        joins,
        left: items.into_iter(),
        out: Vec::new(alloc),
    };
    advance(alloc, level, levels)
}

// The element in hand has given a value: each level whose elements have all gone gives its list to
// the one around it.
fn ascend<'s, 'k>(
    alloc: Global,
    value: Got<'s>,
    levels: &mut Vec<Level<'s, 'k>>,
) -> Result<Task<'s, 'k>, NoMemory>
    ensures value { IfOk result (λ t. SameValue levels.old.items (λ r. got value.entry)
        levels.new.items (λ r. task_value r t)) }
    ensures order { IfOk result (λ t. task_waiting t ++ levels_waiting levels.new.items
        ≡ levels_waiting levels.old.items) }
    ensures ended { IfOk result (λ t. Ended t levels.new.items) }
{
    let mut here = value;
    while let Some(level) = levels.pop() {
        let fuller = with(alloc, level, here)?;
        match advance(alloc, fuller, levels)? {
            Task::Done(list) => here = list,
            Task::Go(value, rest) => return Ok(Task::Go(value, rest)),
        }
    }
    Ok(Task::Done(here))
}

// The level after this result of an element.
fn with<'s, 'k>(
    alloc: Global,
    level: Level<'s, 'k>,
    value: Got<'s>,
) -> Result<Level<'s, 'k>, NoMemory>
    ensures out { IfOk result (λ l. map item l.out.items ≡ map item level.entry.out.items
        ++ added level.entry.joins (got value.entry)) }
    ensures rest { IfOk result (λ l. l.rest ≡ level.entry.rest) }
    ensures joins { IfOk result (λ l. l.joins ≡ level.entry.joins) }
    ensures left { IfOk result (λ l. into_iter_items l.left ≡ into_iter_items level.entry.left) }
{
    let Level {
        rest,
        joins,
        left,
        mut out,
    } = level;
    if joins {
        append(&mut out, flat_elements(alloc, value)?)?;
    } else {
        push(&mut out, settle(alloc, value)?)?;
    }
    Ok(Level {
        rest,
        joins,
        left,
        out,
    })
}

// The next element of a level, which stays open, or the list that the level gives.
fn advance<'s, 'k>(
    alloc: Global,
    level: Level<'s, 'k>,
    levels: &mut Vec<Level<'s, 'k>>,
) -> Result<Task<'s, 'k>, NoMemory>
    ensures value { IfOk result (λ t. SameValue levels.old.items (λ r. level_list r level.entry)
        levels.new.items (λ r. task_value r t)) }
    ensures order { IfOk result (λ t. task_waiting t ++ levels_waiting levels.new.items
        ≡ waiting level.entry.rest (map item (into_iter_items level.entry.left))
        ++ levels_waiting levels.old.items) }
    ensures kept { IfOk result (λ t. Kept t levels.old.items levels.new.items) }
{
    let Level {
        rest,
        joins,
        mut left,
        out,
    } = level;
    match left.next() {
        Some(next) => {
            push(
                levels,
                Level {
                    rest,
                    joins,
                    left,
                    out,
                },
            )?;
            Ok(Task::Go(next.into_got(), rest))
        }
        None => Ok(Task::Done(gather(alloc, out)?)),
    }
}
