//! `unset`, by one path. Its targets are the places of the path, from which no names lead on.
ghost use Rattle.std.specs.Prelude.{[], ℕ, List, map};
ghost use Rattle.cs_value.specs.View.{tree};
ghost use Rattle.cs_jsonmatch.specs.View.{locations};
ghost use Rattle.cs_targets.specs.Targets.{targets_from};
ghost use Rattle.cs_patch.specs.Operations.{unset_path};
ghost use Rattle.cs_targets.specs.Seen.{seen_of, outer_seen};
ghost use Rattle.cs_patch.specs.Entries.{removal_at};
ghost use Rattle.cs_patch.specs.Outcomes.{Answers, Tells, removal};

use crate::all::remove_each;
use crate::entries::RemovalAt;
use crate::fault::PatchFault;
use crate::refusal::{Ask, first_cause};
use crate::stop::{Stop, told};
use cs_jsonmatch::Place;
use cs_targets::{outermost, targets};
use cs_value::Val;
use cs_view::DEEPEST_DOCUMENT;
use std::alloc::Global;

// What stands at the outermost of the places is removed.
fn remove_places(alloc: Global, val: &mut Val, places: &[Place]) -> Result<(), Stop>
    ensures { (path : List ℕ) → Answers path result (tree val.new) (removal path
        (outer_seen (map seen_of (targets_from (tree val.old) [] (locations places.now))))
        (tree val.old)) }
{
    let found = targets(alloc, val, places, &[])?;
    let outer = outermost(alloc, &found)?;
    if let Some(cause) = first_cause(Ask::Free, &outer) {
        return Err(Stop::Because(cause));
    }
    remove_each(alloc, val, &outer)?;
    if !val.within(DEEPEST_DOCUMENT) {
        return Err(Stop::TooDeep);
    }
    Ok(())
}

fn unset_places(alloc: Global, val: &mut Val, entry: &RemovalAt<'_>) -> Result<(), Stop>
    ensures { Answers entry.now.text.now result (tree val.new)
        (unset_path (removal_at entry.now) (tree val.old)) }
{
    let places = entry.path.places(alloc, val)?;
    remove_places(alloc, val, &places)
}

// `unset` by one path.
pub(crate) fn unset(alloc: Global, val: &mut Val, entry: &RemovalAt<'_>) -> Result<(), PatchFault>
    ensures { Tells result (tree val.new) (unset_path (removal_at entry.now) (tree val.old)) }
{
    match unset_places(alloc, val, entry) {
        Ok(()) => Ok(()),
        Err(stop) => Err(told(alloc, stop, entry.text)),
    }
}
