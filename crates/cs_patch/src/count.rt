//! `inc` and `dec`, by one path.
ghost use Rattle.std.specs.Prelude.{◌≡◌, [], ℕ, List, map};
ghost use Rattle.cs_value.specs.View.{tree};
ghost use Rattle.cs_jsonmatch.specs.View.{locations};
ghost use Rattle.cs_alter.specs.Within.{recount};
ghost use Rattle.cs_targets.specs.Targets.{targets_from};
ghost use Rattle.cs_patch.specs.Operations.{along, count_by, inc_path, dec_path};
ghost use Rattle.cs_alter.specs.Alterations.{counted};
ghost use Rattle.cs_targets.specs.Seen.{seen_of, outer_seen};
ghost use Rattle.cs_patch.specs.declared.refusal.Ask.TheVariants as ask;
ghost use Rattle.cs_alter.specs.declared.alteration.Change.TheVariants as change;
ghost use Rattle.cs_patch.specs.Entries.{number_at};
ghost use Rattle.cs_patch.specs.Outcomes.{Answers, Tells, outcome_of};

use crate::all::alter_each;
use crate::entries::NumberAt;
use crate::fault::PatchFault;
use crate::refusal::{Ask, first_cause};
use crate::stop::{Stop, told};
use cs_alter::{Alteration, Change};
use cs_jsonmatch::Place;
use cs_targets::{outermost, targets};
use cs_value::Val;
use cs_view::DEEPEST_DOCUMENT;
use std::alloc::Global;

// The number at each of the outermost of the places is another one.
fn count_places(alloc: Global, val: &mut Val, places: &[Place], change: Change) -> Result<(), Stop>
    ensures { (path : List ℕ) → Answers path result (tree val.new)
        (outcome_of path (ask.Number change) (recount (counted change))
        (outer_seen (map seen_of (targets_from (tree val.old) [] (locations places.now))))
        (tree val.old)) }
{
    let found = targets(alloc, val, places, &[])?;
    let outer = outermost(alloc, &found)?;
    if let Some(cause) = first_cause(Ask::Number(change), &outer) {
        return Err(Stop::Because(cause));
    }
    alter_each(alloc, val, &outer, &Alteration::Count(change))?;
    if !val.within(DEEPEST_DOCUMENT) {
        return Err(Stop::TooDeep);
    }
    Ok(())
}

fn count_at(alloc: Global, val: &mut Val, entry: &NumberAt<'_>, change: Change) -> Result<(), Stop>
    ensures { Answers entry.now.text.now result (tree val.new)
        (along entry.now.text.now (count_by (counted change) entry.now.text.now)
        (tree val.old)) }
{
    let places = entry.path.places(alloc, val)?;
    count_places(alloc, val, &places, change)
}

fn adding(entry: &NumberAt<'_>) -> Change
    ensures { result ≡ change.Add entry.now.number }
{
    Change::Add(entry.number)
}

fn taking(entry: &NumberAt<'_>) -> Change
    ensures { result ≡ change.Subtract entry.now.number }
{
    Change::Subtract(entry.number)
}

// `inc` by one path.
pub(crate) fn inc(alloc: Global, val: &mut Val, entry: &NumberAt<'_>) -> Result<(), PatchFault>
    ensures { Tells result (tree val.new) (inc_path (number_at entry.now) (tree val.old)) }
{
    let change = adding(entry);
    match count_at(alloc, val, entry, change) {
        Ok(()) => Ok(()),
        Err(stop) => Err(told(alloc, stop, entry.text)),
    }
}

// `dec` by one path.
pub(crate) fn dec(alloc: Global, val: &mut Val, entry: &NumberAt<'_>) -> Result<(), PatchFault>
    ensures { Tells result (tree val.new) (dec_path (number_at entry.now) (tree val.old)) }
{
    let change = taking(entry);
    match count_at(alloc, val, entry, change) {
        Ok(()) => Ok(()),
        Err(stop) => Err(told(alloc, stop, entry.text)),
    }
}
