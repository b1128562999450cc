//! Where documents come from: a view under its counter, or nowhere.
ghost use Rattle.std.specs.Prelude.{◌≡◌, [], List, IfOk, map, option_map, length, ◌≤◌, ◌+◌};
ghost use Rattle.cs_value.specs.Tree.{Tree};
ghost use Rattle.cs_value.specs.View.{tree};
ghost use Rattle.cs_view.specs.Dataset.{standing};
ghost use Rattle.cs_view.specs.Keys.{having, selected};

use crate::item::push;
use cs_value::{NoMemory, Steps, Txt, Val};
use cs_view::{Key, View};
use std::alloc::Global;
use std::slice;
use std::sync::ledger::Ledger;

/// Where documents come from, under a counter of the type `C`: the dataset `docs`.
pub trait Source<C> {
    ghost docs: { Self → List Tree };

    /// The documents that have the key, in the order of their ids.
    fn select<'s>(
        &'s self,
        alloc: Global,
        key: &Key,
        count: &mut C,
    ) -> Result<Vec<&'s Val>, NoMemory>
        ensures found { IfOk result
            (λ v. map (λ r. tree r.now) v.items ≡ having key.now (docs self.now)) };

    /// The documents that have each of the keys, in the order of their ids.
    fn select_all<'s>(
        &'s self,
        alloc: Global,
        keys: &[Key],
        count: &mut C,
    ) -> Result<Vec<&'s Val>, NoMemory>
        ensures found { IfOk result
            (λ v. map (λ r. tree r.now) v.items ≡ selected keys.now (docs self.now)) };

    /// The document with the id: `None` exactly where there is none.
    fn by_id<'s>(&'s self, id: &Txt, count: &mut C) -> Option<&'s Val>
        ensures found { option_map (λ r. tree r.now) result ≡ standing id.now (docs self.now) };
}

/// A dataset without documents, which counts nothing.
#[derive(Clone, Copy)]
pub struct NoDocs;

impl Source<()> for NoDocs {
    ghost docs = { λ n. [] };

    fn select<'s>(
        &'s self,
        alloc: Global,
        _key: &Key,
        _count: &mut (),
    ) -> Result<Vec<&'s Val>, NoMemory> {
        Ok(Vec::new(alloc))
    }

    fn select_all<'s>(
        &'s self,
        alloc: Global,
        _keys: &[Key],
        _count: &mut (),
    ) -> Result<Vec<&'s Val>, NoMemory> {
        Ok(Vec::new(alloc))
    }

    fn by_id<'s>(&'s self, _id: &Txt, _count: &mut ()) -> Option<&'s Val> {
        None
    }
}

impl<V: View<L>, L: Ledger> Source<Steps<L>> for V {
    ghost docs = { λ v. V.docs v };

    #[tactic(auto, using(cs_view::proofs::Looking::selected_one))]
    fn select<'s>(
        &'s self,
        alloc: Global,
        key: &Key,
        count: &mut Steps<L>,
    ) -> Result<Vec<&'s Val>, NoMemory>
        ensures found { IfOk result
            (λ v. map (λ r. tree r.now) v.items ≡ having key.now (V.docs self.now)) }
        ensures visits { count.new ≤ count.old + length (having key.now (V.docs self.now)) }
    {
        let found = Source::<Steps<L>>::select_all(self, alloc, slice::from_ref(key), count)?;
        Ok(found)
    }

    fn select_all<'s>(
        &'s self,
        alloc: Global,
        keys: &[Key],
        count: &mut Steps<L>,
    ) -> Result<Vec<&'s Val>, NoMemory>
        ensures found { IfOk result
            (λ v. map (λ r. tree r.now) v.items ≡ selected keys.now (V.docs self.now)) }
        ensures visits { count.new ≤ count.old + length (selected keys.now (V.docs self.now)) }
    {
        let places = View::select_all(self, alloc, keys)?;
        let mut found = Vec::with_capacity(alloc, places.len())?;
        for place in &places {
            push(&mut found, self.at(*place, count).val())?;
        }
        Ok(found)
    }

    fn by_id<'s>(&'s self, id: &Txt, count: &mut Steps<L>) -> Option<&'s Val> {
        match View::by_id(self, id) {
            Some(place) => Some(self.at(place, count).val()),
            None => None,
        }
    }
}
