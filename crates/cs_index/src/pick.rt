//! The places of the documents that have each of some keys.
ghost use Rattle.std.specs.Prelude.{◌≡◌, ℕ, List, map, IfOk, OnOk};
ghost use Rattle.cs_view.specs.declared.key.Key.TheVariants.{Id};
ghost use Rattle.cs_index.specs.Index.{ArePlacesOf};
ghost use Rattle.cs_index.specs.Picking.{IsImplied, wanted, is_hit, is_found, is_found_at, is_found_among, AreWanted, Finds, ArePlacesIn, HoldWanted};

use cs_docs::Docs;
use cs_value::{NoMemory, Txt};
use cs_view::{Key, has_all};
use std::alloc::Global;

// The place of the document with the id, if it has each of the keys.
fn wanted(docs: &Docs, keys: &[Key], id: &Txt) -> Option<u32>
    ensures { result ≡ wanted docs.now keys.now id.now }
{
    let place = docs.place(id)?;
    let doc = docs.found(place)?;
    if has_all(keys, doc) {
        Some(place)
    } else {
        None
    }
}

// Adds the document with the id, if it has each of the keys.
#[tactic(auto, using(crate::proofs::Picked::none_found, crate::proofs::Picked::one_found))]
fn choose_id<'d>(
    docs: &Docs,
    keys: &[Key],
    id: &'d Txt,
    hits: &mut Vec<(&'d Txt, u32)>,
) -> Result<(), NoMemory>
    requires { AreWanted docs.now keys.now hits.old.items }
    ensures wanted { OnOk result (AreWanted docs.now keys.now hits.new.items) }
    ensures finds { OnOk result
        (Finds (is_found docs.now keys.now id.now) hits.old.items hits.new.items) }
{
    let Some(place) = wanted(docs, keys, id) else {
        return Ok(());
    };
    hits.push((id, place))?;
    Ok(())
}

// Adds the document at a place, if it has each of the keys.
#[tactic(auto, using(crate::proofs::Picked::nothing_at))]
fn choose<'d>(
    docs: &'d Docs,
    keys: &[Key],
    place: u32,
    hits: &mut Vec<(&'d Txt, u32)>,
) -> Result<(), NoMemory>
    requires { AreWanted docs.now keys.now hits.old.items }
    ensures wanted { OnOk result (AreWanted docs.now keys.now hits.new.items) }
    ensures finds { OnOk result
        (Finds (is_found_at docs.now keys.now place) hits.old.items hits.new.items) }
{
    let Some(found) = docs.found(place) else {
        return Ok(());
    };
    if has_all(keys, found) {
        hits.push((found.id(), place))?;
    }
    Ok(())
}

// What stands at one of the places and has each of the keys.
#[tactic(auto, using(crate::proofs::Marks::or_more))]
fn hits_among<'d>(
    alloc: Global,
    places: &[u32],
    docs: &'d Docs,
    keys: &[Key],
) -> Result<Vec<(&'d Txt, u32)>, NoMemory>
    ensures wanted { IfOk result (λ hits. AreWanted docs.now keys.now hits.items) }
    ensures found { IfOk result (λ hits. (y : List ℕ)
        → is_hit y hits.items ≡ is_found_among docs.now keys.now places.now y) }
{
    let mut hits = Vec::new(alloc);
    for place in places {
        choose(docs, keys, *place, &mut hits)?;
    }
    Ok(hits)
}

fn second_of(alloc: Global, hits: &Vec<(&Txt, u32)>) -> Result<Vec<u32>, NoMemory>
    ensures { IfOk result (λ places. places.items ≡ map (λ h. h.1) hits.now.items) }
{
    let mut out = Vec::with_capacity(alloc, hits.len())?;
    for hit in hits {
        out.push(hit.1)?;
    }
    Ok(out)
}

// The places of what was found, in the order of the ids.
fn places_of(alloc: Global, hits: Vec<(&Txt, u32)>) -> Result<Vec<u32>, NoMemory>
    ensures { IfOk result (λ places. ArePlacesIn hits.entry.items places.items) }
{
    let mut ascending = hits;
    ascending.sort_unstable();
    ascending.dedup();
    let places = second_of(alloc, &ascending)?;
    Ok(places)
}

// Those of the places, among which all that are wanted stand, whose documents have each of the
// keys.
pub(crate) fn places_among(
    alloc: Global,
    places: &[u32],
    keys: &[Key],
    docs: &Docs,
) -> Result<Vec<u32>, NoMemory>
    requires { HoldWanted docs.now keys.now places.now }
    ensures { IfOk result (λ places. ArePlacesOf keys.now docs.now places.items) }
{
    let hits = hits_among(alloc, places, docs, keys)?;
    let places = places_of(alloc, hits)?;
    Ok(places)
}

// The place of the document with the id, which is one of the keys, if it has each of them.
pub(crate) fn place_of_id(
    alloc: Global,
    id: &Txt,
    keys: &[Key],
    docs: &Docs,
) -> Result<Vec<u32>, NoMemory>
    requires { IsImplied (Id id.now) keys.now }
    ensures { IfOk result (λ places. ArePlacesOf keys.now docs.now places.items) }
{
    let mut hits = Vec::new(alloc);
    choose_id(docs, keys, id, &mut hits)?;
    let places = places_of(alloc, hits)?;
    Ok(places)
}
