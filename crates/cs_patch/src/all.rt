//! Each target altered or removed, from the last to the first, so that the positions in a list stay
//! those before a removal.
ghost use Rattle.std.specs.Prelude.{◌≡◌, OnOk, List, ℕ, map};
ghost use Rattle.cs_value.specs.View.{tree};
ghost use Rattle.cs_alter.specs.Within.{changed, removed};
ghost use Rattle.cs_alter.specs.Alterations.{altered};
ghost use Rattle.cs_targets.specs.Seen.{seen, each_seen};

use cs_alter::{Alteration, alter, remove};
use cs_targets::Target;
use cs_value::{NoMemory, Val};
use std::alloc::Global;

pub(crate) fn alter_each(
    alloc: Global,
    val: &mut Val,
    targets: &Vec<&Target>,
    alteration: &Alteration,
) -> Result<(), NoMemory>
    ensures { (ns : List (List ℕ)) → OnOk result (tree val.new
        ≡ each_seen (λ x. changed x.place (altered alteration.now))
        (map (λ t. seen ns t.now) targets.now.items) (tree val.old)) }
{
    let mut left = targets.len();
    while left > 0 {
        left -= 1;
        alter(alloc, val, &targets[left].place, alteration)?;
    }
    Ok(())
}

pub(crate) fn remove_each(
    alloc: Global,
    val: &mut Val,
    targets: &Vec<&Target>,
) -> Result<(), NoMemory>
    ensures { (ns : List (List ℕ)) → OnOk result (tree val.new ≡ each_seen (λ x. removed x.place)
        (map (λ t. seen ns t.now) targets.now.items) (tree val.old)) }
{
    let mut left = targets.len();
    while left > 0 {
        left -= 1;
        remove(alloc, val, &targets[left].place)?;
    }
    Ok(())
}
