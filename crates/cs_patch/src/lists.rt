//! The lists that `insert` puts its items into, by its path.
ghost use Rattle.std.specs.Prelude.{◌≡◌, [], ◌∷◌, IfOk, IfSome, map, option_map, reverse};
ghost use Rattle.std.specs.List.{list_any};
ghost use Rattle.cs_value.specs.Tree.{Tree};
ghost use Rattle.cs_value.specs.View.{list_tree};
ghost use Rattle.cs_jsonmatch.specs.Places.{places};
ghost use Rattle.cs_jsonmatch.specs.View.{item_of, items_of, step_of, path as path_of};
ghost use Rattle.cs_alter.specs.Alterations.{altered, side as side_of};
ghost use Rattle.cs_alter.specs.Inserted.{insert_into, is_name as name_word, is_misplaced as misplaced};
ghost use Rattle.cs_patch.specs.Readings.{lists_before, put_last};

use crate::entries::Lists;
use cs_alter::{Alteration, Insertion, Side, copy_all};
use cs_jsonmatch::{Item, Items, JsonPath, Step};
use cs_value::{NoMemory, Val};
use std::alloc::Global;

fn is_name(item: &Item) -> bool
    ensures { result ≡ name_word (item_of item.now) }
{
    match item {
        Item::Named(_) => true,
        Item::Position(_) => false,
        Item::Range(_, _) => false,
        Item::Every => false,
        Item::Meets(_) => false,
    }
}

fn has_name(items: &[Item]) -> bool
    ensures { result ≡ list_any name_word (map item_of items.now) }
{
    for item in items {
        if is_name(item) {
            return true;
        }
    }
    false
}

fn names_some(items: &Items) -> bool
    ensures { result ≡ list_any name_word (items_of items.now) }
{
    match items {
        Items::One(item) => is_name(item),
        Items::Many(items) => has_name(items),
    }
}

// Whether a step may not end the path.
fn is_misplaced(step: &Step) -> bool
    ensures { result ≡ misplaced (step_of step.now) }
{
    step.deep || names_some(&step.items)
}

fn only_step(alloc: Global, step: Step) -> Result<JsonPath, NoMemory>
    ensures { IfOk result (λ p. path_of p ≡ step_of step ∷ []) }
{
    let mut steps = Vec::new(alloc);
    steps.push(step)?;
    Ok(JsonPath { steps })
}

// The insertion by a step.
fn insertion(
    alloc: Global,
    side: Side,
    items: &Vec<Val>,
    step: Step,
) -> Result<Alteration, NoMemory>
    ensures { IfOk result (λ a. (t : Tree) → altered a t ≡ insert_into (side_of side)
        (step_of step) (list_tree items.now.items) t) }
{
    let last = only_step(alloc, step)?;
    let items = copy_all(alloc, items)?;
    Ok(Alteration::Insert(Insertion { side, last, items }))
}

// The lists that items are put into by a path. Its last step, which selects elements of them, is
// taken out of it; `None` where there is none, or one by which nothing can be put.
pub(crate) fn lists_by(
    alloc: Global,
    path: JsonPath,
    side: Side,
    items: &Vec<Val>,
) -> Result<Option<Lists>, NoMemory>
    ensures before { IfOk result (λ o. (v : Tree) →
        lists_before (reverse (path_of path)) v
        ≡ option_map (λ w. places (path_of w.parents) v) o) }
    ensures put { IfOk result (λ o. (t : Tree) → IfSome o (λ w. altered w.alteration t
        ≡ put_last (side_of side) (list_tree items.now.items) (reverse (path_of path)) t)) }
{
    let mut parents = path;
    let Some(step) = parents.steps.pop() else {
        return Ok(None);
    };
    if is_misplaced(&step) {
        return Ok(None);
    }
    let alteration = insertion(alloc, side, items, step)?;
    Ok(Some(Lists {
        parents,
        alteration,
    }))
}
