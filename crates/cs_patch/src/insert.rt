//! `insert`.
ghost use Rattle.std.specs.Prelude.{[], ℕ, List, map};
ghost use Rattle.cs_value.specs.View.{tree};
ghost use Rattle.cs_jsonmatch.specs.View.{locations};
ghost use Rattle.cs_alter.specs.Alterations.{altered};
ghost use Rattle.cs_targets.specs.Targets.{targets_from};
ghost use Rattle.cs_patch.specs.Operations.{insert_path};
ghost use Rattle.cs_targets.specs.Seen.{seen_of, outer_seen};
ghost use Rattle.cs_patch.specs.declared.refusal.Ask.TheVariants as ask;
ghost use Rattle.cs_patch.specs.Entries.{insertion_at};
ghost use Rattle.cs_patch.specs.Outcomes.{Answers, Tells, outcome_of};

use crate::all::alter_each;
use crate::entries::InsertAt;
use crate::fault::PatchFault;
use crate::refusal::{Ask, Cause, first_cause};
use crate::stop::{Stop, told};
use cs_alter::Alteration;
use cs_jsonmatch::Place;
use cs_targets::{outermost, targets};
use cs_value::Val;
use cs_view::DEEPEST_DOCUMENT;
use std::alloc::Global;

// The alteration at each of the outermost of the places, which are lists.
fn put_places(
    alloc: Global,
    val: &mut Val,
    places: &[Place],
    alteration: &Alteration,
) -> Result<(), Stop>
    ensures { (path : List ℕ) → Answers path result (tree val.new)
        (outcome_of path ask.List (altered alteration.now)
        (outer_seen (map seen_of (targets_from (tree val.old) [] (locations places.now))))
        (tree val.old)) }
{
    let found = targets(alloc, val, places, &[])?;
    let outer = outermost(alloc, &found)?;
    if let Some(cause) = first_cause(Ask::List, &outer) {
        return Err(Stop::Because(cause));
    }
    alter_each(alloc, val, &outer, alteration)?;
    if !val.within(DEEPEST_DOCUMENT) {
        return Err(Stop::TooDeep);
    }
    Ok(())
}

// Puts the items into the lists.
fn put_into_lists(alloc: Global, val: &mut Val, entry: &InsertAt<'_>) -> Result<(), Stop>
    ensures { Answers entry.now.text.now result (tree val.new)
        (insert_path (insertion_at entry.now) (tree val.old)) }
{
    let Some(lists) = &entry.lists else {
        return Err(Stop::Because(Cause::NotArray));
    };
    let places = lists.parents.places(alloc, val)?;
    put_places(alloc, val, &places, &lists.alteration)
}

// `insert`.
pub(crate) fn insert(alloc: Global, val: &mut Val, entry: &InsertAt<'_>) -> Result<(), PatchFault>
    ensures { Tells result (tree val.new) (insert_path (insertion_at entry.now) (tree val.old)) }
{
    match put_into_lists(alloc, val, entry) {
        Ok(()) => Ok(()),
        Err(stop) => Err(told(alloc, stop, entry.text)),
    }
}
