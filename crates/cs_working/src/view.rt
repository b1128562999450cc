//! A working dataset as a view.
ghost use Rattle.cs_working.specs.Working.{working, doc_at as document_at};

use crate::working::Working;
use cs_value::{NoMemory, Steps, Txt};
use cs_view::{Doc, Key, View};
use std::alloc::Global;
use std::slice;
use std::sync::ledger::Ledger;

/// The documents that stand now, at places of the view's own.
impl<'d, L: Ledger> View<L> for Working<'d> {
    ghost use Rattle.cs_working.specs.Kept.{is_dataset_of};

    ghost docs = { working };

    ghost doc_at = { document_at };

    ghost dataset = { is_dataset_of };

    fn len(&self) -> u32 {
        Working::count(self)
    }

    #[tactic(auto, using(cs_view::proofs::Looking::selected_one))]
    fn select(&self, alloc: Global, key: &Key) -> Result<Vec<u32>, NoMemory> {
        Working::select_all::<L>(self, alloc, slice::from_ref(key))
    }

    fn select_all(&self, alloc: Global, keys: &[Key]) -> Result<Vec<u32>, NoMemory> {
        Working::select_all::<L>(self, alloc, keys)
    }

    fn at(&self, place: u32, steps: &mut Steps<L>) -> &Doc {
        steps.visit();
        Working::at(self, place)
    }

    fn by_id(&self, id: &Txt) -> Option<u32> {
        Working::place(self, id)
    }
}
