//! The two forms of an ordered map: a vector while it is small, and a tree.
ghost use Rattle.std.specs.Prelude.{◌≡◌, ◌^◌, ◌<◌, [], ◌∷◌, ◌++◌, length, IfOk, OnOk, OnErr};
ghost use Rattle.std.specs.Map.{lookup, remove_entry};
ghost use Rattle.std.specs.BTreeMap.{insert_entry, is_at};
ghost use Rattle.std.specs.Option.{option_copied};
ghost use Rattle.cs_value.specs.Entries.{Ascend, compares, entries};

use super::iter::{IntoIter, Iter};
use super::name::Name;
use super::{grow, row, tree};
use crate::memory::NoMemory;
use crate::txt::Txt;
use std::alloc::Global;
use std::collections::BTreeMap;

/// The most pairs that stand in a vector.
pub const MOST_IN_ROW: usize = 32;

#[derive(Drop)]
pub(crate) enum Stored<V> {
    Few(Vec<(Name, V)>),
    Many(BTreeMap<String, V>),
}

impl<V> Stored<V> {
    pub(super) fn new(alloc: Global) -> Stored<V>
        ensures { entries result ≡ [] }
    {
        Stored::Few(Vec::new(alloc))
    }

    pub(super) fn with_capacity(alloc: Global, pairs: usize) -> Result<Stored<V>, NoMemory>
        ensures { IfOk result (λ s. entries s ≡ []) }
    {
        if pairs > MOST_IN_ROW {
            return Ok(Stored::Many(BTreeMap::new(alloc)));
        }
        Ok(Stored::Few(Vec::with_capacity(alloc, pairs)?))
    }

    // The same pairs, with room for so many more.
    pub(super) fn fitted(self, alloc: Global, more: usize) -> Result<Stored<V>, NoMemory>
    where
        V: Drop,
        ensures { IfOk result (λ s. entries s ≡ entries self) }
    {
        match self {
            Stored::Few(row) => Ok(Stored::Few(row::fitted(alloc, row, more)?)),
            Stored::Many(tree) => Ok(Stored::Many(tree)),
        }
    }

    pub(super) fn len(&self) -> usize
        ensures len { result ≡ length (entries self.now) }
        ensures small { result < 2 ^ 63 }
    {
        match self {
            Stored::Few(row) => row.len(),
            Stored::Many(tree) => tree.len(),
        }
    }

    pub(super) fn get(&self, name: &str) -> Option<&V>
        requires { Ascend (entries self.now) }
        ensures { option_copied result ≡ lookup (is_at (compares name.now)) (entries self.now) }
    {
        match self {
            Stored::Few(row) => row::get(row.as_slice(), name),
            Stored::Many(tree) => tree::get(tree, name),
        }
    }

    pub(super) fn find(&self, name: &Txt) -> Option<&V>
        requires { Ascend (entries self.now) }
        ensures { option_copied result ≡ lookup (is_at (compares name.now)) (entries self.now) }
    {
        match self {
            Stored::Few(row) => row::find(row.as_slice(), name),
            Stored::Many(tree) => tree::get(tree, name.as_str()),
        }
    }

    // Whether the vector is full and lacks the name.
    fn is_full_without(&self, name: &str) -> bool {
        match self {
            Stored::Few(row) => row.len() >= MOST_IN_ROW
                && row::place(row.as_slice(), name).is_err(),
            Stored::Many(_) => false,
        }
    }

    pub(super) fn insert(
        &mut self,
        alloc: Global,
        name: Txt,
        value: V,
    ) -> Result<Option<V>, NoMemory>
    where
        V: Drop,
        requires { Ascend (entries self.old) }
        ensures old { IfOk result
            (λ old. old ≡ lookup (is_at (compares name)) (entries self.old)) }
        ensures entries { OnOk result
            (entries self.new ≡ insert_entry compares (entries self.old) name value) }
        ensures kept { OnErr result (entries self.new ≡ entries self.old) }
    {
        if self.is_full_without(name.as_str()) {
            grow::grow(alloc, self)?;
        }
        match self {
            Stored::Few(row) => row::put(alloc, row, name, value),
            Stored::Many(tree) => tree::put(alloc, tree, name, value),
        }
    }

    pub(super) fn set(&mut self, alloc: Global, name: Txt, value: V) -> Result<(), NoMemory>
    where
        V: Drop,
        requires { Ascend (entries self.old) }
        ensures entries { OnOk result
            (entries self.new ≡ insert_entry compares (entries self.old) name value) }
        ensures kept { OnErr result (entries self.new ≡ entries self.old) }
    {
        if self.is_full_without(name.as_str()) {
            grow::grow(alloc, self)?;
        }
        match self {
            Stored::Few(row) => row::set(alloc, row, name, value),
            Stored::Many(tree) => {
                drop(tree::put(alloc, tree, name, value)?);
                Ok(())
            }
        }
    }

    pub(super) fn push_last(&mut self, alloc: Global, name: Name, value: V) -> Result<(), NoMemory>
    where
        V: Drop,
        requires { Ascend (entries self.old ++ (name, value) ∷ []) }
        ensures last { OnOk result (entries self.new ≡ entries self.old ++ (name, value) ∷ []) }
        ensures kept { OnErr result (entries self.new ≡ entries self.old) }
    {
        match self {
            Stored::Few(row) => {
                row.push((name, value))?;
                Ok(())
            }
            Stored::Many(tree) => match tree::enter(alloc, tree, &name, value) {
                Ok(()) => Ok(()),
                Err(_) => Err(NoMemory),
            },
        }
    }

    pub(super) fn remove(&mut self, name: &str) -> Option<V>
    where
        V: Drop,
        requires { Ascend (entries self.old) }
        ensures value { result ≡ lookup (is_at (compares name.now)) (entries self.old) }
        ensures left { entries self.new
            ≡ remove_entry (is_at (compares name.now)) (entries self.old) }
    {
        match self {
            Stored::Few(row) => row::take(row, name),
            Stored::Many(tree) => tree::take(tree, name),
        }
    }

    pub(super) fn iter(&self) -> Iter<'_, V>
        ensures rest { result ≡ entries self.now }
        ensures fits { length (entries self.now) < 2 ^ 63 }
    {
        match self {
            Stored::Few(row) => Iter::of_row(row.as_slice()),
            Stored::Many(tree) => Iter::of_tree(tree),
        }
    }

    pub(super) fn into_iter(self) -> IntoIter<V>
    where
        V: Drop,
        ensures { result ≡ entries self }
    {
        match self {
            Stored::Few(row) => IntoIter::of_row(row),
            Stored::Many(tree) => IntoIter::of_tree(tree),
        }
    }
}
