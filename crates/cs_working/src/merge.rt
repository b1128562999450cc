//! The documents of a working dataset that have each of some keys, in the order of their ids.
ghost use Rattle.std.specs.Prelude.{◌≡◌, ◌++◌, ◌∷◌, ◌<◌, ℕ, List, All, IsSome, IfOk, OnOk, map, Some};
ghost use Rattle.std.specs.Ordering.{is_lt};
ghost use Rattle.cs_view.specs.Dataset.{id_cmp};
ghost use Rattle.cs_view.specs.Keys.{selected};
ghost use Rattle.cs_shelf.specs.Places.{most_places};
ghost use Rattle.cs_shelf.specs.View.{doc_at as put_at};
ghost use Rattle.cs_index.specs.View.{doc_at as store_at};
ghost use Rattle.cs_working.specs.Merged.{ArePlaces, id_at, behind, lower, upper, low_place, merged};
ghost use Rattle.cs_working.specs.Working.{working, doc_at};

use crate::working::Working;
use cs_shelf::{MOST_PLACES, Shelf};
use cs_value::{NoMemory, Txt};
use cs_view::{Key, View};
use std::alloc::Global;
use std::cmp::Ordering;
use std::sync::ledger::Ledger;

// Whether the document at the place comes before the id.
fn is_lower(shelf: &Shelf, place: u32, id: &Txt) -> bool
    requires { IsSome (put_at shelf.now place) }
    ensures { result ≡ is_lt (id_cmp (id_at (put_at shelf.now) place) id.now) }
{
    shelf.at(place).id().as_str().cmp(id.as_str()) == Ordering::Less
}

// Adds the places of what is put.
fn add_all(places: &mut Vec<u32>, put: &[u32]) -> Result<(), NoMemory>
    requires { All (λ p. p < most_places) put.now }
    ensures { OnOk result (places.new.items ≡ places.old.items ++ map behind put.now) }
{
    for place in put {
        places.push(MOST_PLACES + *place)?;
    }
    Ok(())
}

// Adds the first places of what is put, as far as their ids are below this one, and gives those
// after them.
fn add_lower<'p>(
    shelf: &Shelf,
    places: &mut Vec<u32>,
    put: &'p [u32],
    id: &Txt,
) -> Result<&'p [u32], NoMemory>
    requires { ArePlaces (put_at shelf.now) put.now }
    ensures added { OnOk result (places.new.items
        ≡ places.old.items ++ map behind (lower (put_at shelf.now) id.now put.now)) }
    ensures left { IfOk result (λ rest. rest.now ≡ upper (put_at shelf.now) id.now put.now) }
    ensures stand { IfOk result (λ rest. ArePlaces (put_at shelf.now) rest.now) }
{
    let mut left = put;
    while let Some((place, later)) = left.split_first() {
        if !is_lower(shelf, *place, id) {
            break;
        }
        places.push(MOST_PLACES + *place)?;
        left = later;
    }
    Ok(left)
}

impl<'d> Working<'d> {
    // A place below `MOST_PLACES` of the document that the store holds under the id and at the
    // place: the place itself, if it is below. The place that the store gives for an id is below;
    // no clause says so of the places that it finds by a key.
    fn low_place(&self, place: u32, id: &Txt) -> u32
        ensures { result ≡ low_place self.now place id.now }
    {
        if place < MOST_PLACES {
            return place;
        }
        match self.store.docs().place(id) {
            Some(low) => low,
            None => place,
        }
    }

    // Adds the place of the store, unless its id is touched, behind the places of what is put that
    // come before it, and gives those that are left.
    fn add_standing<'p>(
        &self,
        places: &mut Vec<u32>,
        place: u32,
        put: &'p [u32],
    ) -> Result<&'p [u32], NoMemory>
        requires stands { IsSome (store_at self.now.store place) }
        requires put { ArePlaces (put_at self.now.put) put.now }
        ensures added { IfOk result (λ rest. (more : List ℕ)
            → places.new.items ++ merged self.now more rest.now
            ≡ places.old.items ++ merged self.now (place ∷ more) put.now) }
        ensures stand { IfOk result (λ rest. ArePlaces (put_at self.now.put) rest.now) }
    {
        let id = self.store.docs().at(place).id();
        if self.touched.contains(id) {
            return Ok(put);
        }
        let left = add_lower(&self.put, places, put, id)?;
        places.push(self.low_place(place, id))?;
        Ok(left)
    }

    // The places of the store, less those of touched ids, and among them those of what is put.
    fn merge(&self, alloc: Global, standing: &[u32], put: &[u32]) -> Result<Vec<u32>, NoMemory>
        requires stand { All (λ p. IsSome (store_at self.now.store p)) standing.now }
        requires put { ArePlaces (put_at self.now.put) put.now }
        ensures { IfOk result
            (λ places. places.items ≡ merged self.now standing.now put.now) }
    {
        let mut places = Vec::new(alloc);
        let mut left = put;
        for place in standing {
            left = self.add_standing(&mut places, *place, left)?;
        }
        add_all(&mut places, left)?;
        Ok(places)
    }

    // The places of the documents that have each of the keys, in the order of their ids. Those of
    // the store are found by its index, and only what is put is tested besides.
    pub(crate) fn select_all<L: Ledger>(
        &self,
        alloc: Global,
        keys: &[Key],
    ) -> Result<Vec<u32>, NoMemory>
        ensures { IfOk result
            (λ places. map (doc_at self.now) places.items
            ≡ map Some (selected keys.now (working self.now))) }
    {
        let standing = View::<L>::select_all(&self.store, alloc, keys)?;
        let put = self.put.select_all(alloc, keys)?;
        self.merge(alloc, standing.as_slice(), put.as_slice())
    }
}
