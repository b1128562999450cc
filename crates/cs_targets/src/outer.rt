//! The targets that are inside no other one. Where there are several, the locations of all are
//! held in a set, in which each location that a target lies in is looked up.
ghost use Rattle.std.specs.Prelude.{◌≡◌, IfOk, OnOk, List, ℕ, map, cond, true};
ghost use Rattle.std.specs.List.{list_any};
ghost use Rattle.cs_jsonmatch.specs.Places.{Location};
ghost use Rattle.cs_targets.specs.Seen.{seen, outer_seen};
ghost use Rattle.cs_targets.specs.Held.{is_held, same_location, any_before};

use crate::target::{Target, keep};
use cs_jsonmatch::Part;
use cs_value::NoMemory;
use std::alloc::Global;
use std::collections::BTreeSet;

fn hold<'t>(held: &mut BTreeSet<&'t [Part]>, location: &'t [Part]) -> Result<(), NoMemory>
    ensures { OnOk result ((l : Location) → is_held held.new l
        ≡ cond (same_location location.now l) true (is_held held.old l)) }
{
    drop(held.insert(location)?);
    Ok(())
}

// The locations of the targets.
fn locations<'t>(alloc: Global, targets: &'t [Target]) -> Result<BTreeSet<&'t [Part]>, NoMemory>
    ensures { IfOk result (λ held. (l : Location) → is_held held l
        ≡ list_any (λ t. same_location t.location.items l) targets.now) }
{
    let mut held = BTreeSet::new(alloc);
    for target in targets {
        hold(&mut held, &target.location)?;
    }
    Ok(held)
}

// Whether one of the locations is met on the way to the location, before its end.
fn is_inside_some(location: &[Part], held: &BTreeSet<&[Part]>) -> bool
    ensures { result ≡ any_before (is_held held.now) location.now }
{
    for length in 0..location.len() {
        if held.contains(&location[..length]) {
            return true;
        }
    }
    false
}

// The targets that are inside no other one, by a set of the locations of all.
fn outside_all<'t>(alloc: Global, targets: &'t [Target]) -> Result<Vec<&'t Target>, NoMemory>
    ensures { (ns : List (List ℕ)) → IfOk result
        (λ kept. map (λ t. seen ns t.now) kept.items ≡ outer_seen (map (seen ns) targets.now)) }
{
    let held = locations(alloc, targets)?;
    let mut kept = Vec::new(alloc);
    for target in targets {
        keep(!is_inside_some(&target.location, &held), target, &mut kept)?;
    }
    Ok(kept)
}

/// The targets that are inside no other one, in their order. A target is never inside itself, so
/// one alone is kept, and no set is made. It fails where memory is refused.
pub fn outermost<'t>(alloc: Global, targets: &'t [Target]) -> Result<Vec<&'t Target>, NoMemory>
    ensures { (ns : List (List ℕ)) → IfOk result
        (λ kept. map (λ t. seen ns t.now) kept.items ≡ outer_seen (map (seen ns) targets.now)) }
{
    let [target] = targets else {
        return outside_all(alloc, targets);
    };
    let mut kept = Vec::with_capacity(alloc, 1)?;
    kept.push(target)?;
    Ok(kept)
}
