//! Walks over all documents, in the order of their ids.
ghost use Rattle.std.specs.Prelude.{◌≡◌, ◌<◌, All, map, Some, IfOk, option_map};
ghost use Rattle.cs_view.specs.Keys.{selected};
ghost use Rattle.cs_shelf.specs.Places.{most_places};
ghost use Rattle.cs_shelf.specs.View.{documents, doc_at};
ghost use Rattle.cs_shelf.specs.Referring.{next_referrer, above};

use crate::shelf::Shelf;
use cs_value::{NoMemory, Txt};
use cs_view::{Key, has_all, has_ref};
use std::alloc::Global;
use std::cmp::Ordering;

/// Whether an id is above another, where one is given.
pub fn is_above(low: Option<&Txt>, id: &Txt) -> bool
    ensures { result ≡ above (option_map (λ i. i.now) low.entry) id.now }
{
    match low {
        Some(low) => low.as_str().cmp(id.as_str()) == Ordering::Less,
        None => true,
    }
}

impl Shelf {
    /// The places of all documents, in the order of their ids. `NoMemory` where the allocator has
    /// no room for them.
    pub fn places(&self, alloc: Global) -> Result<Vec<u32>, NoMemory>
        ensures { IfOk result
            (λ places. map (doc_at self.now) places.items ≡ map Some (documents self.now)) }
    {
        let mut places = Vec::new(alloc);
        for (_, place) in self.order.iter() {
            places.push(*place)?;
        }
        Ok(places)
    }

    /// The places of the documents that have each of the keys, in the order of their ids. Each
    /// document is tested. `NoMemory` where the allocator has no room for them.
    pub fn select_all(&self, alloc: Global, keys: &[Key]) -> Result<Vec<u32>, NoMemory>
        ensures selected { IfOk result
            (λ places. map (doc_at self.now) places.items
            ≡ map Some (selected keys.now (documents self.now))) }
        ensures low { IfOk result (λ places. All (λ p. p < most_places) places.items) }
    {
        let mut places = Vec::new(alloc);
        for (_, place) in self.order.iter() {
            if has_all(keys, self.at(*place)) {
                places.push(*place)?;
            }
        }
        Ok(places)
    }

    /// The least id, above `low` where it is given, of a document that has the target as `_ref` of
    /// some object. It takes no memory.
    pub fn next_referrer(&self, target: &Txt, low: Option<&Txt>) -> Option<&Txt>
        ensures { option_map (λ i. i.now) result ≡ next_referrer (documents self.now) target.now
            (option_map (λ i. i.now) low.entry) }
    {
        for (_, place) in self.order.iter() {
            let document = self.at(*place);
            if is_above(low, document.id()) && has_ref(document.val(), target) {
                return Some(document.id());
            }
        }
        None
    }
}
