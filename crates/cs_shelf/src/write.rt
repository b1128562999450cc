//! Writing documents.
ghost use Rattle.std.specs.Prelude.{◌≡◌, ◌==◌, ◌<◌, ℕ, List, Some, None, true, false, cond, IsSome, IfSome, OnOk, OnErr};
ghost use Rattle.std.specs.BTreeMap.{IsOrdered, get};
ghost use Rattle.slab.specs.Slab.{HasRoomFor};
ghost use Rattle.cs_view.specs.Dataset.{id_cmp, same_id, stands, with_doc, without};
ghost use Rattle.cs_view.specs.Document.{id_of};
ghost use Rattle.cs_view.specs.View.{document_of};
ghost use Rattle.cs_shelf.specs.Places.{IsSound, IsEntered, AreLow, StandIn, most_places, tree_at, trees_at};
ghost use Rattle.cs_shelf.specs.View.{documents, StayIn};

use crate::shelf::{MOST_PLACES, Shelf};
use cs_value::{NoMemory, Txt};
use cs_view::Doc;
use slab::Slab;
use std::alloc::Global;
use std::collections::BTreeMap;

// Puts a document in the place of the one that stands at the place.
fn replace_at(store: &mut Slab<Doc>, place: u32, doc: Doc)
    requires { IsSome (tree_at store.old place) }
    ensures { (p : ℕ)
        → tree_at store.new p ≡ cond (p == place) (Some (document_of doc)) (tree_at store.old p) }
{
    drop(store.try_remove(place as usize));
    let _place = store.insert_reserved(doc);
}

// Takes out what stands at the place.
fn clear_at(store: &mut Slab<Doc>, place: u32)
    ensures { (p : ℕ) → tree_at store.new p ≡ cond (p == place) None (tree_at store.old p) }
{
    drop(store.try_remove(place as usize));
}

// The place that is next.
pub(crate) fn next_place(store: &Slab<Doc>) -> Option<u32>
    ensures next { IfSome result (λ p. store.now.vacant_key ≡ p) }
    ensures vacant { IfSome result (λ p. tree_at store.now p ≡ None) }
    ensures low { IfSome result (λ p. p < most_places) }
{
    match u32::try_from(store.vacant_key()) {
        Ok(place) => {
            if place < MOST_PLACES {
                Some(place)
            } else {
                None
            }
        }
        Err(_) => None,
    }
}

// Puts a document at the place that is next.
pub(crate) fn fill(store: &mut Slab<Doc>, place: u32, doc: Doc)
    requires { (store.old.vacant_key ≡ place) × HasRoomFor store.old 1 }
    ensures { (p : ℕ)
        → tree_at store.new p ≡ cond (p == place) (Some (document_of doc)) (tree_at store.old p) }
{
    let _key = store.insert_reserved(doc);
}

// Puts a document of a new id at a new place, and gives the place.
fn put_new(
    alloc: Global,
    store: &mut Slab<Doc>,
    order: &mut BTreeMap<Txt, u32>,
    doc: Doc,
) -> Result<u32, NoMemory>
    requires fresh { get id_cmp order.old (id_of (document_of doc)) ≡ None }
    requires sound { IsSound store.old order.old }
    requires entered { IsEntered store.old order.old }
    requires low { AreLow order.old }
    ensures sound { IsSound store.new order.new }
    ensures entered { IsEntered store.new order.new }
    ensures low { AreLow order.new }
    ensures ordered { IsOrdered id_cmp order.new }
    ensures put { OnOk result (trees_at store.new order.new.entries
        ≡ with_doc (document_of doc) (trees_at store.old order.old.entries)) }
    ensures kept { OnErr result (trees_at store.new order.new.entries
        ≡ trees_at store.old order.old.entries) }
    ensures stay { StandIn order.old order.new }
    ensures only { OnOk result ((x : List ℕ) (p : ℕ) → get id_cmp order.new x ≡ Some p
        → same_id (id_of (document_of doc)) x ≡ false → get id_cmp order.old x ≡ Some p) }
    ensures as_before { OnErr result ((x : List ℕ)
        → get id_cmp order.new x ≡ get id_cmp order.old x) }
{
    let _len = order.len();
    let Some(place) = next_place(store) else {
        return Err(NoMemory);
    };
    let id = doc.id().copy(alloc)?;
    store.reserve(1)?;
    drop(order.insert(id, place)?);
    fill(store, place, doc);
    Ok(place)
}

impl Shelf {
    /// Puts a document at a new place, where none of its id stands. `NoMemory` where the allocator
    /// has no room for it; nothing changes then.
    pub fn add(&mut self, doc: Doc) -> Result<(), NoMemory>
        requires { stands (id_of (document_of doc)) (documents self.old) ≡ false }
        ensures put { OnOk result (documents self.new
            ≡ with_doc (document_of doc) (documents self.old)) }
        ensures kept { OnErr result (documents self.new ≡ documents self.old) }
        ensures stay { StayIn self.old self.new }
    {
        self.hints.grow(self.alloc, &self.order);
        let id = doc.id().copy(self.alloc)?;
        let place = put_new(self.alloc, &mut self.store, &mut self.order, doc)?;
        self.hints.note(&id, place);
        Ok(())
    }

    /// Puts a document in the place of the one of its id. It takes no memory.
    pub fn replace(&mut self, doc: Doc)
        requires { stands (id_of (document_of doc)) (documents self.old) ≡ true }
        ensures put { documents self.new ≡ with_doc (document_of doc) (documents self.old) }
        ensures stay { StayIn self.old self.new }
    {
        match self.place_of(doc.id()) {
            Some(place) => replace_at(&mut self.store, place, doc),
            None => unreachable!(),
        }
    }

    /// Takes out the document of the id, where one stands. It takes no memory.
    pub fn remove(&mut self, id: &Txt)
        ensures removed { documents self.new ≡ without id.now (documents self.old) }
        ensures stood { StayIn self.new self.old }
    {
        if let Some(place) = self.order.remove(id) {
            clear_at(&mut self.store, place);
        }
    }
}
