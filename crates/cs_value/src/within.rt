//! Whether the lists and objects of a value nest no deeper than a number. The walk goes no deeper
//! than that number, so a value that nests far deeper costs no stack.
ghost use Rattle.std.specs.Prelude.{◌≡◌, nat_le};
ghost use Rattle.cs_value.specs.Tree.{depth, trees, trees_depth, pairs_depth};
ghost use Rattle.cs_value.specs.View.{tree, fields, list_tree};

use crate::val::{Fields, Val};

#[cycle(within)]
#[tactic(auto, using(crate::proofs::Depths::left_within, crate::proofs::Depths::right_within))]
pub(crate) fn within(value: &Val, deepest: u32) -> bool
    ensures { result ≡ nat_le (depth (tree value.now)) deepest }
{
    match value {
        Val::List(items) => deepest > 0 && items_within(items, deepest - 1),
        Val::Obj(object) => deepest > 0 && pairs_within(object, deepest - 1),
        _ => true,
    }
}

#[cycle(within)]
#[tactic(auto, using(crate::proofs::Depths::left_within, crate::proofs::Depths::right_within))]
fn items_within(items: &Vec<Val>, deepest: u32) -> bool
    ensures { result ≡ nat_le (trees_depth (trees (list_tree items.now.items))) deepest }
{
    for item in items {
        if !within(item, deepest) {
            return false;
        }
    }
    true
}

#[cycle(within)]
#[tactic(auto, using(crate::proofs::Depths::left_within, crate::proofs::Depths::right_within))]
fn pairs_within(object: &Fields, deepest: u32) -> bool
    ensures { result ≡ nat_le (pairs_depth (fields object.now)) deepest }
{
    for (_, member) in object.pairs.iter() {
        if !within(member, deepest) {
            return false;
        }
    }
    true
}
