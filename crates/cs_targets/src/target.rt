//! The targets of a path.
ghost use Rattle.std.specs.Prelude.{◌≡◌, ◌++◌, IfOk, OnOk, List, [], ◌∷◌, ℕ, cond, filter, map};
ghost use Rattle.cs_value.specs.View.{tree};
ghost use Rattle.cs_alter.specs.Within.{reach};
ghost use Rattle.cs_targets.specs.Targets.{targets_from, target_by};
ghost use Rattle.cs_targets.specs.Seen.{stands_of, way_of, seen, seen_of, is_absent, is_missing as missing_word};
ghost use Rattle.cs_jsonmatch.specs.View.{locations};
ghost use Rattle.cs_jsonmatch.specs.declared.places.Part.TheVariants.{Name};

use cs_alter::look;
use cs_jsonmatch::{Part, Place, copy_parts};
use cs_value::{NoMemory, Txt, Val};
use std::alloc::Global;

/// What stands at a target, as far as an operation of a patch asks.
#[derive(Clone, Copy, Drop)]
pub enum Stands {
    /// Something on the way is no object.
    Blocked,
    /// Nothing, and nothing is in the way.
    Absent,
    /// A number.
    Number(i64),
    /// A list.
    List,
    /// Null, a boolean, a text or an object.
    Other,
}

/// A target of a path, which ends with names that are followed from each place.
#[derive(Drop)]
pub struct Target {
    /// The place that the names lead on from.
    pub place: Vec<Part>,
    /// The location that they lead to.
    pub location: Vec<Part>,
    /// What stands there.
    pub stands: Stands,
}

fn standing(val: &Val) -> Stands
    ensures { result ≡ stands_of (tree val.now) }
{
    match val {
        Val::Num(number) => Stands::Number(*number),
        Val::List(_) => Stands::List,
        _ => Stands::Other,
    }
}

fn way(val: &Val, names: &[Txt]) -> Stands
    ensures { result ≡ way_of (reach names.now (tree val.now)) }
{
    let mut here = val;
    for name in names {
        let Val::Obj(object) = here else {
            return Stands::Blocked;
        };
        let Some(next) = object.get(name.as_str()) else {
            return Stands::Absent;
        };
        here = next;
    }
    standing(here)
}

fn location(alloc: Global, place: &[Part], names: &[Txt]) -> Result<Vec<Part>, NoMemory>
    ensures { IfOk result (λ parts. parts.items ≡ place.now ++ map Name names.now) }
{
    let mut parts = copy_parts(alloc, place)?;
    for name in names {
        parts.push(Part::Name(name.copy(alloc)?))?;
    }
    Ok(parts)
}

// The target that the names lead to from a place of the value, where nothing on the way blocks.
fn add_target(
    alloc: Global,
    start: &Val,
    place: &Place,
    names: &[Txt],
    found: &mut Vec<Target>,
) -> Result<(), NoMemory>
    ensures { OnOk result (map (seen names.now) found.new.items
        ≡ map (seen names.now) found.old.items ++ map seen_of
        (target_by place.now.parts.items names.now (reach names.now (tree start.now)))) }
{
    let stands = way(start, names);
    if let Stands::Blocked = stands {
        return Ok(());
    }
    found.push(Target {
        place: copy_parts(alloc, &place.parts)?,
        location: location(alloc, &place.parts, names)?,
        stands,
    })?;
    Ok(())
}

/// The targets that the names lead to from the places of the value, in the places' order. A place
/// from which something is in the way gives none. It fails where memory is refused.
pub fn targets(
    alloc: Global,
    val: &Val,
    places: &[Place],
    names: &[Txt],
) -> Result<Vec<Target>, NoMemory>
    ensures { IfOk result (λ ts. map (seen names.now) ts.items
        ≡ map seen_of (targets_from (tree val.now) names.now (locations places.now))) }
{
    let mut found = Vec::new(alloc);
    for place in places {
        if let Some(start) = look(val, &place.parts) {
            add_target(alloc, start, place, names, &mut found)?;
        }
    }
    Ok(found)
}

// Keeps the target where it is to be kept.
pub(crate) fn keep<'t>(
    keeps: bool,
    target: &'t Target,
    kept: &mut Vec<&'t Target>,
) -> Result<(), NoMemory>
    ensures { (ns : List (List ℕ)) → OnOk result (map (λ t. seen ns t.now) kept.new.items
        ≡ map (λ t. seen ns t.now) kept.old.items ++ cond keeps (seen ns target.now ∷ []) []) }
{
    if keeps {
        kept.push(target)?;
    }
    Ok(())
}

fn is_missing(target: &Target) -> bool
    ensures { result ≡ is_absent target.now.stands }
{
    matches!(target.stands, Stands::Absent)
}

/// The targets where nothing stands, in their order. It fails where memory is refused.
pub fn missing<'t>(alloc: Global, targets: &[&'t Target]) -> Result<Vec<&'t Target>, NoMemory>
    ensures { (ns : List (List ℕ)) → IfOk result (λ kept. map (λ t. seen ns t.now) kept.items
        ≡ filter missing_word (map (λ t. seen ns t.now) targets.now)) }
{
    let mut kept = Vec::new(alloc);
    for target in targets {
        keep(is_missing(target), target, &mut kept)?;
    }
    Ok(kept)
}
