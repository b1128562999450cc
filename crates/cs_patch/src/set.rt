//! `set` and `setIfMissing`, by one path.
ghost use Rattle.std.specs.Prelude.{◌≡◌, [], true, ℕ, List, length, nat_lt, map, filter, IfOk};
ghost use Rattle.cs_value.specs.View.{tree};
ghost use Rattle.cs_jsonmatch.specs.View.{locations};
ghost use Rattle.cs_alter.specs.Within.{given};
ghost use Rattle.cs_targets.specs.Targets.{targets_from};
ghost use Rattle.cs_patch.specs.Operations.{set_path, set_missing_path};
ghost use Rattle.cs_targets.specs.Seen.{seen, seen_of, outer_seen, is_missing, are_standing};
ghost use Rattle.cs_alter.specs.Alterations.{altered};
ghost use Rattle.cs_patch.specs.declared.refusal.Ask.TheVariants as ask;
ghost use Rattle.cs_patch.specs.Entries.{value_at};
ghost use Rattle.cs_patch.specs.Outcomes.{Answers, Tells, outcome_of};

use crate::all::alter_each;
use crate::entries::ValueAt;
use crate::fault::PatchFault;
use crate::refusal::{Ask, first_cause};
use crate::stop::{Stop, told};
use cs_alter::{Alteration, Gift};
use cs_jsonmatch::Place;
use cs_targets::{Target, missing, outermost, targets};
use cs_value::{NoMemory, Txt, Val};
use cs_view::DEEPEST_DOCUMENT;
use std::alloc::Global;

fn copy_names(alloc: Global, names: &[Txt]) -> Result<Vec<Txt>, NoMemory>
    ensures { IfOk result (λ copies. copies.items ≡ names.now) }
{
    let mut copies = Vec::new(alloc);
    for name in names {
        copies.push(name.copy(alloc)?)?;
    }
    Ok(copies)
}

fn gift(alloc: Global, names: &[Txt], new: &Val) -> Result<Alteration, NoMemory>
    ensures { IfOk result (λ d. altered d ≡ given names.now (tree new.now)) }
{
    Ok(Alteration::Give(Gift {
        names: copy_names(alloc, names)?,
        new: new.copy(alloc)?,
    }))
}

// Whether the names of a run by themselves lead deeper than a document may be.
fn is_long(names: &[Txt]) -> bool
    ensures { result ≡ nat_lt 48 (length names.now) }
{
    names.len() > DEEPEST_DOCUMENT as usize
}

// Puts the value where the names lead from each target. Where they lead too deep, nothing is made.
fn give_each(
    alloc: Global,
    val: &mut Val,
    targets: &Vec<&Target>,
    names: &[Txt],
    new: &Val,
) -> Result<(), Stop>
    requires { are_standing (tree val.now) (map (λ t. seen [] t.now) targets.now.items)
        ≡ true }
    ensures { (path : List ℕ) → Answers path result (tree val.new)
        (outcome_of path ask.Free (given names.now (tree new.now))
        (map (λ t. seen names.now t.now) targets.now.items) (tree val.old)) }
{
    if let Some(cause) = first_cause(Ask::Free, targets) {
        return Err(Stop::Because(cause));
    }
    if targets.len() > 0 && is_long(names) {
        return Err(Stop::TooDeep);
    }
    let alteration = gift(alloc, names, new)?;
    alter_each(alloc, val, targets, &alteration)?;
    if !val.within(DEEPEST_DOCUMENT) {
        return Err(Stop::TooDeep);
    }
    Ok(())
}

fn set_from(
    alloc: Global,
    val: &mut Val,
    places: &[Place],
    names: &[Txt],
    new: &Val,
) -> Result<(), Stop>
    ensures { (path : List ℕ) → Answers path result (tree val.new)
        (outcome_of path ask.Free (given names.now (tree new.now))
        (outer_seen (map seen_of (targets_from (tree val.old) names.now (locations places.now))))
        (tree val.old)) }
{
    let found = targets(alloc, val, places, names)?;
    let outer = outermost(alloc, &found)?;
    give_each(alloc, val, &outer, names, new)
}

fn set_missing_from(
    alloc: Global,
    val: &mut Val,
    places: &[Place],
    names: &[Txt],
    new: &Val,
) -> Result<(), Stop>
    ensures { (path : List ℕ) → Answers path result (tree val.new)
        (outcome_of path ask.Free (given names.now (tree new.now)) (filter is_missing
        (outer_seen (map seen_of (targets_from (tree val.old) names.now (locations places.now)))))
        (tree val.old)) }
{
    let found = targets(alloc, val, places, names)?;
    let outer = outermost(alloc, &found)?;
    let absent = missing(alloc, &outer)?;
    give_each(alloc, val, &absent, names, new)
}

fn set_places(alloc: Global, val: &mut Val, entry: &ValueAt<'_>) -> Result<(), Stop>
    ensures { Answers entry.now.text.now result (tree val.new)
        (set_path (value_at entry.now) (tree val.old)) }
{
    let places = entry.prefix.places(alloc, val)?;
    set_from(alloc, val, &places, &entry.names, entry.new)
}

fn set_missing_places(alloc: Global, val: &mut Val, entry: &ValueAt<'_>) -> Result<(), Stop>
    ensures { Answers entry.now.text.now result (tree val.new)
        (set_missing_path (value_at entry.now) (tree val.old)) }
{
    let places = entry.prefix.places(alloc, val)?;
    set_missing_from(alloc, val, &places, &entry.names, entry.new)
}

// `set` by one path.
pub(crate) fn set(alloc: Global, val: &mut Val, entry: &ValueAt<'_>) -> Result<(), PatchFault>
    ensures { Tells result (tree val.new) (set_path (value_at entry.now) (tree val.old)) }
{
    match set_places(alloc, val, entry) {
        Ok(()) => Ok(()),
        Err(stop) => Err(told(alloc, stop, entry.text)),
    }
}

// `setIfMissing` by one path.
pub(crate) fn set_if_missing(
    alloc: Global,
    val: &mut Val,
    entry: &ValueAt<'_>,
) -> Result<(), PatchFault>
    ensures { Tells result (tree val.new) (set_missing_path (value_at entry.now) (tree val.old)) }
{
    match set_missing_places(alloc, val, entry) {
        Ok(()) => Ok(()),
        Err(stop) => Err(told(alloc, stop, entry.text)),
    }
}
