//! The names that a path ends with, and the path before them.
ghost use Rattle.std.specs.Prelude.{◌≡◌, ◌∷◌, [], IfOk, option_map, map, reverse};
ghost use Rattle.cs_jsonmatch.specs.View.{step_of, path_of, item_of, items_of};
ghost use Rattle.cs_targets.specs.Targets.{one_name, plain_name as plain_word, cut};
ghost use Rattle.cs_targets.specs.Runs.{last_plain};

use cs_jsonmatch::{Item, Items, Step};
use cs_value::{NoMemory, Txt};
use std::alloc::Global;

fn name_of(item: &Item) -> Option<&Txt>
    ensures { option_map (λ n. n.now) result ≡ one_name (item_of item.now ∷ []) }
{
    match item {
        Item::Named(name) => Some(name),
        Item::Position(_) => None,
        Item::Range(_, _) => None,
        Item::Every => None,
        Item::Meets(_) => None,
    }
}

fn only_name(items: &[Item]) -> Option<&Txt>
    ensures { option_map (λ n. n.now) result ≡ one_name (map item_of items.now) }
{
    let Some((first, rest)) = items.split_first() else {
        return None;
    };
    if rest.len() > 0 {
        return None;
    }
    name_of(first)
}

fn name_among(items: &Items) -> Option<&Txt>
    ensures { option_map (λ n. n.now) result ≡ one_name (items_of items.now) }
{
    match items {
        Items::One(item) => name_of(item),
        Items::Many(items) => only_name(items),
    }
}

fn plain_name(step: &Step) -> Option<&Txt>
    ensures { option_map (λ n. n.now) result ≡ plain_word (step_of step.now) }
{
    if step.deep {
        None
    } else {
        name_among(&step.items)
    }
}

fn last_name(steps: &[Step]) -> Option<&Txt>
    ensures { option_map (λ n. n.now) result ≡ last_plain (reverse (path_of steps.now)) }
{
    match steps.split_last() {
        Some((last, _)) => plain_name(last),
        None => None,
    }
}

/// Takes the longest run of plain names off the end of the steps, and gives the names in their
/// order. It fails where memory is refused.
pub fn take_run(alloc: Global, steps: &mut Vec<Step>) -> Result<Vec<Txt>, NoMemory>
    ensures { IfOk result (λ names. cut [] (reverse (path_of steps.old.items))
        ≡ (names.items, reverse (path_of steps.new.items))) }
{
    let mut names = Vec::new(alloc);
    while let Some(name) = last_name(steps) {
        let copy = name.copy(alloc)?;
        names.push(copy)?;
        drop(steps.pop());
    }
    names.reverse();
    Ok(names)
}
