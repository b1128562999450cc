//! Where documents were put last: places that are likely, so that most look-ups by id search
//! nothing. A hint may be wrong, and whoever follows it looks at what stands there; but a slot that
//! was never noted tells that no document has an id of this slot.
ghost use Rattle.std.specs.Prelude.{◌≡◌, ◌<◌, ℕ, List, IfOk, IfSome, true, false};
ghost use Rattle.cs_shelf.specs.Hinted.{AreHinted, blank, is_blank, slot_at};

use cs_value::{NoMemory, Txt};
use std::alloc::Global;
use std::collections::BTreeMap;
use std::hash::{FoldHasher, Hash, Hasher};

// Fewer documents are found by a search as soon as by a hint.
const FEW: usize = 32;

/// What a slot has that was never noted: no place.
pub(crate) const BLANK: u32 = 4_294_967_295;

// Where the hint of an id stands: one of so many slots.
fn slot_of(id: &Txt, count: usize) -> usize
    requires { 0 < count }
    ensures slot { result ≡ slot_at count id.now }
    ensures within { result < count }
{
    let mut hash = FoldHasher::default();
    id.as_str().hash(&mut hash);
    hash.finish() as usize % count
}

// So many slots, none of which was noted.
fn blank_slots(alloc: Global, count: usize) -> Result<Vec<u32>, NoMemory> {
    let mut slots = Vec::new(alloc);
    slots.resize(count, BLANK)?;
    Ok(slots)
}

/// For each id one slot, which it may share with others: there stands the place of the document
/// that was put last under one of them.
#[derive(Drop)]
pub(crate) struct Hints {
    pub(crate) slots: Vec<u32>,
}

impl Hints {
    /// No hints. It takes no memory.
    pub(crate) fn new(alloc: Global) -> Hints {
        Hints {
            slots: Vec::new(alloc),
        }
    }

    /// Hints at each of the places, with room for as many more. `NoMemory` where the allocator has
    /// no room for them.
    pub(crate) fn of(alloc: Global, order: &BTreeMap<Txt, u32>) -> Result<Hints, NoMemory>
        ensures { IfOk result (λ hints. AreHinted order.now hints.slots.items) }
    {
        let count = order.len().saturating_mul(4).saturating_add(1);
        let mut hints = Hints {
            slots: blank_slots(alloc, count)?,
        };
        for (id, place) in order.iter() {
            hints.note(id, *place);
        }
        Ok(hints)
    }

    /// Makes more slots where they become few for the documents that stand. Where the allocator has
    /// no room for them, the hints stay as they are.
    pub(crate) fn grow(&mut self, alloc: Global, order: &BTreeMap<Txt, u32>)
        requires { AreHinted order.now self.old.slots.items }
        ensures { AreHinted order.now self.new.slots.items }
    {
        if order.len() < FEW || self.slots.len() / 2 > order.len() {
            return;
        }
        if let Ok(hints) = Hints::of(alloc, order) {
            *self = hints;
        }
    }

    /// Hints at the place of a document that is put under the id.
    pub(crate) fn note(&mut self, id: &Txt, place: u32)
        ensures own { is_blank self.new.slots.items id.now ≡ false }
        ensures kept { (x : List ℕ) → is_blank self.old.slots.items x ≡ false
            → is_blank self.new.slots.items x ≡ false }
    {
        let count = self.slots.len();
        if count > 0 {
            self.slots[slot_of(id, count)] = place.min(BLANK - 1);
        }
    }

    /// The hint in the slot of the id, if there are slots.
    pub(crate) fn hint(&self, id: &Txt) -> Option<u32>
        ensures { IfSome result
            (λ hint. hint ≡ blank → is_blank self.now.slots.items id.now ≡ true) }
    {
        let count = self.slots.len();
        if count == 0 {
            return None;
        }
        Some(self.slots[slot_of(id, count)])
    }
}
