//! A shelf of documents that come in the order of their ids.
ghost use Rattle.std.specs.Prelude.{◌≡◌, true, map, IfOk, OnOk};
ghost use Rattle.std.specs.BTreeMap.{IsFromIterResult};
ghost use Rattle.cs_view.specs.Dataset.{ascending, id_cmp};
ghost use Rattle.cs_view.specs.View.{document_of};
ghost use Rattle.cs_shelf.specs.Gathering.{IsPutNext, AreListed};
ghost use Rattle.cs_shelf.specs.View.{documents as dataset};

use crate::hints::Hints;
use crate::shelf::Shelf;
use crate::write::{fill, next_place};
use cs_value::{NoMemory, Txt};
use cs_view::Doc;
use slab::Slab;
use std::alloc::Global;
use std::collections::BTreeMap;

// Documents at places, and the place of each id, listed in the order in which they came.
#[derive(Drop)]
struct Listed {
    store: Slab<Doc>,
    places: Vec<(Txt, u32)>,
}

// Puts one more document at the place that is next, and lists its id with the place.
fn put_next(alloc: Global, listed: &mut Listed, document: Doc) -> Result<(), NoMemory>
    ensures { OnOk result (IsPutNext listed.old.store listed.new.store
        listed.old.places.items listed.new.places.items (document_of document)) }
{
    let Some(place) = next_place(&listed.store) else {
        return Err(NoMemory);
    };
    let id = document.id().copy(alloc)?;
    listed.store.reserve(1)?;
    fill(&mut listed.store, place, document);
    listed.places.push((id, place))?;
    Ok(())
}

// Puts the documents at places, each one after those before it. There is room for all from the
// first on.
fn put_all(alloc: Global, documents: Vec<Doc>) -> Result<Listed, NoMemory>
    requires { ascending (map document_of documents.items) ≡ true }
    ensures { IfOk result
        (λ l. AreListed l.store l.places.items (map document_of documents.items)) }
{
    let mut listed = Listed {
        store: Slab::with_capacity(alloc, documents.len())?,
        places: Vec::with_capacity(alloc, documents.len())?,
    };
    for document in documents {
        put_next(alloc, &mut listed, document)?;
    }
    Ok(listed)
}

// The place of each id, as the list has it. As the ids ascend, none is sought.
fn ordered(alloc: Global, places: Vec<(Txt, u32)>) -> Result<BTreeMap<Txt, u32>, NoMemory>
    ensures { IfOk result (IsFromIterResult id_cmp places.items) }
{
    let order: BTreeMap<Txt, u32> = places.into_iter().collect(alloc)?;
    Ok(order)
}

impl Shelf {
    /// A shelf of documents whose ids ascend. They are moved, not copied, and none is sought by its
    /// id. `NoMemory` where the allocator has no room for their places and for copies of their ids,
    /// or where there are more documents than places.
    pub fn of(alloc: Global, documents: Vec<Doc>) -> Result<Shelf, NoMemory>
        requires { ascending (map document_of documents.items) ≡ true }
        ensures { IfOk result (λ s. dataset s ≡ map document_of documents.items) }
    {
        let Listed { store, places } = put_all(alloc, documents)?;
        let order = ordered(alloc, places)?;
        let hints = Hints::of(alloc, &order)?;
        Ok(Shelf {
            store,
            order,
            hints,
            alloc,
        })
    }
}
