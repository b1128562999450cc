//! Views: datasets that look their documents up by keys, under a counter of visits.
ghost use Rattle.std.specs.Prelude.{◌≡◌, ◌+◌, ℕ, List, length, true, IfOk, IsSome, Option, Some, option_map, map};
ghost use Rattle.cs_value.specs.Tree.{Tree};
ghost use Rattle.cs_view.specs.Dataset.{standing, is_dataset};
ghost use Rattle.cs_view.specs.Keys.{having, selected};
ghost use Rattle.cs_view.specs.View.{document_of};

use crate::doc::Doc;
use crate::key::Key;
use cs_value::{NoMemory, Steps, Txt};
use std::alloc::Global;
use std::sync::ledger::Ledger;

/// A dataset whose documents stand at places, under the counter of visits of each ledger.
///
/// `docs` is the dataset, and `doc_at` the document that stands at a place, if one does.
pub trait View<L: Ledger> {
    ghost docs: { Self → List Tree };

    ghost doc_at: { Self → ℕ → Option Tree };

    /// How many documents there are.
    fn len(&self) -> u32
        ensures { result ≡ length (docs self.now) };

    /// The places of the documents that have the key, in the order of their ids. `NoMemory` where
    /// the allocator has no room for them.
    fn select(&self, alloc: Global, key: &Key) -> Result<Vec<u32>, NoMemory>
        ensures { IfOk result (λ places. map (doc_at self.now) places.items
            ≡ map Some (having key.now (docs self.now))) };

    /// The places of the documents that have each of the keys, in the order of their ids: those of
    /// all documents where there is no key. A view may look up by whichever key it likes best, and
    /// test the others. `NoMemory` where the allocator has no room for them.
    fn select_all(&self, alloc: Global, keys: &[Key]) -> Result<Vec<u32>, NoMemory>
        ensures { IfOk result (λ places. map (doc_at self.now) places.items
            ≡ map Some (selected keys.now (docs self.now))) };

    /// The document at a place where one stands: one visit.
    fn at(&self, place: u32, steps: &mut Steps<L>) -> &Doc
        requires { IsSome (doc_at self.now place) }
        ensures found { doc_at self.now place ≡ Some (document_of result.now) }
        ensures visit { steps.new ≡ steps.old + 1 };

    /// The place of the document with the id: `None` exactly where there is none.
    fn by_id(&self, id: &Txt) -> Option<u32>
        ensures { option_map (doc_at self.now) result
            ≡ option_map Some (standing id.now (docs self.now)) };

    ghost dataset: { (v : Self) → is_dataset (docs v) ≡ true };
}
