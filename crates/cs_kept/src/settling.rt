//! An answer that is made of shares, brought to them value by value.
ghost use Rattle.std.specs.Prelude.{◌≡◌, ◌<◌, length, get_or, not, map, set, IfOk, OnOk};
ghost use Rattle.cs_value.specs.Same.{same_tree};
ghost use Rattle.cs_value.specs.Tree.{Tree};
ghost use Rattle.cs_value.specs.View.{tree};
ghost use Rattle.cs_value.specs.Words.{list_of};
ghost use Rattle.cs_hits.specs.Shares.{SameBut, share_values};

use crate::same::is_same;
use cs_hits::Share;
use cs_value::{NoMemory, Val};
use std::alloc::Global;

// Puts a copy of the value at the place of the list, unless the tree that stands there is the same:
// whether it is another.
fn settle_at(
    alloc: Global,
    list: &mut Vec<Val>,
    place: usize,
    value: &Val,
) -> Result<bool, NoMemory>
    requires { place < length list.old.items }
    ensures values { OnOk result (map tree list.new.items
        ≡ set (map tree list.old.items) place (tree value.now)) }
    ensures stale { IfOk result (λ b. (t : Tree) → b ≡ not (same_tree (tree value.now)
        (get_or (map tree list.old.items) place t))) }
{
    if is_same(value, &list[place]) {
        return Ok(false);
    }
    list[place] = value.copy(alloc)?;
    Ok(true)
}

/// Makes the values of a list those of the shares, which they are but at these places: whether one
/// of them is another tree now. One that is the same stays where it is.
pub(crate) fn settle_places(
    alloc: Global,
    list: &mut Vec<Val>,
    shares: &[Share],
    places: &[usize],
) -> Result<bool, NoMemory>
    requires { SameBut places.now (map tree list.old.items) (share_values shares.now) }
    ensures values { OnOk result (map tree list.new.items ≡ share_values shares.now) }
    ensures stale { IfOk result (λ b. b ≡ not (same_tree (list_of (share_values shares.now))
        (list_of (map tree list.old.items)))) }
{
    let mut stale = false;
    for place in places {
        let another = settle_at(alloc, list, *place, &shares[*place].value)?;
        stale = stale | another;
    }
    Ok(stale)
}
