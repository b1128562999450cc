//! An ordered map from names to values, of one allocation while it is small.
ghost use Rattle.std.specs.Prelude.{◌≡◌, ◌^◌, ◌<◌, [], ◌∷◌, ◌++◌, length, IfOk, OnOk, OnErr, ◌↔◌, IsTrue};
ghost use Rattle.std.specs.Map.{lookup, remove_entry};
ghost use Rattle.std.specs.BTreeMap.{insert_entry, is_at};
ghost use Rattle.std.specs.Option.{option_copied};
ghost use Rattle.std_collections.specs.Map.Iter.{ShowsInOrder, ShowsValuesInOrder, GivesInOrder, deref_pair};
ghost use Rattle.cs_value.specs.Entries.{Name, Ascend, compares};

mod grow;
pub(crate) mod iter;
pub(crate) mod name;
mod row;
pub(crate) mod stored;
mod tree;

use crate::memory::NoMemory;
use crate::txt::Txt;
use iter::{IntoIter, Iter};
use name::Name;
use std::alloc::Global;
use std::marker::Model;
use stored::Stored;

/// Names, each with its value, in ascending order of the names' bytes. Up to [`MOST_IN_ROW`] pairs
/// stand in one vector, which has just their size where they came in order and their number was
/// told; more stand in a tree. Contracts speak of the map by the list of its pairs.
#[derive(Drop)]
pub struct OrderedMap<V> {
    stored: Stored<V>,
    alloc: Global,
}

impl<V> Model for OrderedMap<V> {
    ghost use Rattle.std.specs.Prelude.{List};
    ghost use Rattle.std.specs.Coded.{coded_list, coded×};
    ghost use Rattle.cs_value.specs.Entries.{Name, name_code, entries, Ascend};

    ghost Value = { List (Name × V) };

    ghost coded = { coded_list (coded× name_code V.code) };

    ghost view = { λ m. entries m.stored };

    ghost invariant = { λ m. Ascend (entries m.stored) };
}

impl<V> OrderedMap<V> {
    /// A map without pairs. It takes no memory.
    pub fn new(alloc: Global) -> OrderedMap<V>
        ensures { result ≡ [] }
    {
        OrderedMap {
            stored: Stored::new(alloc),
            alloc,
        }
    }

    /// A map without pairs that has room for so many, or for none if so many belong in a tree.
    /// `NoMemory` where the allocator has no room for them.
    pub fn with_capacity(alloc: Global, pairs: usize) -> Result<OrderedMap<V>, NoMemory>
        ensures { IfOk result (λ m. m ≡ []) }
    {
        Ok(OrderedMap {
            stored: Stored::with_capacity(alloc, pairs)?,
            alloc,
        })
    }

    /// The same pairs with room for so many more, and for no others if they stand in a vector.
    /// `NoMemory` where the allocator has no room for them.
    pub(crate) fn fitted(self, more: usize) -> Result<OrderedMap<V>, NoMemory>
    where
        V: Drop,
        ensures { IfOk result (λ m. m ≡ self) }
    {
        let OrderedMap { stored, alloc } = self;
        Ok(OrderedMap {
            stored: stored.fitted(alloc, more)?,
            alloc,
        })
    }

    /// How many pairs there are.
    pub fn len(&self) -> usize
        ensures len { result ≡ length self.now }
        ensures small { result < 2 ^ 63 }
        ensures ordered { Ascend self.now }
    {
        self.stored.len()
    }

    /// Whether there are no pairs.
    pub fn is_empty(&self) -> bool
        ensures { IsTrue result ↔ (length self.now ≡ 0) }
    {
        self.len() == 0
    }

    /// The pairs, in the order of their names.
    pub fn iter(&self) -> Iter<'_, V>
        // The iterator gives the pairs in order.
        ensures rest { result ≡ self.now }
        ensures runs { ShowsInOrder (deref_pair {K = Name} {X = V}) }
        ensures values_run { ShowsValuesInOrder (deref_pair {K = Name} {X = V}) }

        // The names ascend, and the length fits an `isize`.
        ensures ordered { Ascend self.now }
        ensures fits { length self.now < 2 ^ 63 }
    {
        self.stored.iter()
    }

    /// The pairs by value, in the order of their names.
    pub fn into_iter(self) -> IntoIter<V>
    where
        V: Drop,
        ensures rest { result ≡ self }
        ensures runs { GivesInOrder (Name × V) }
        ensures ordered { Ascend self }
    {
        let OrderedMap { stored, alloc: _ } = self;
        stored.into_iter()
    }

    /// The value of the name. `None` exactly where the map lacks the name.
    pub fn get(&self, name: &str) -> Option<&V>
        ensures value { option_copied result ≡ lookup (is_at (compares name.now)) self.now }
    {
        self.stored.get(name)
    }

    /// The same as [`get`](OrderedMap::get), with a look at the place first at which the name was
    /// found last.
    pub fn find(&self, name: &Txt) -> Option<&V>
        ensures value { option_copied result ≡ lookup (is_at (compares name.now)) self.now }
    {
        self.stored.find(name)
    }

    /// Puts the value at the name, and gives back the value that it replaces: `Ok(None)` exactly
    /// where the name was not there. A name above all others goes last without a search while the
    /// pairs stand in one vector. `NoMemory` where the map cannot grow; it is unchanged then.
    pub fn insert(&mut self, name: Txt, value: V) -> Result<Option<V>, NoMemory>
    where
        V: Drop,
        ensures old { IfOk result (λ old. old ≡ lookup (is_at (compares name)) self.old) }
        ensures entries { OnOk result (self.new ≡ insert_entry compares self.old name value) }
        ensures kept { OnErr result (self.new ≡ self.old) }
    {
        self.stored.insert(self.alloc, name, value)
    }

    /// Puts the value at the name, in the place of one that stood there, without giving that back.
    /// Otherwise as [`insert`](OrderedMap::insert).
    pub fn set(&mut self, name: Txt, value: V) -> Result<(), NoMemory>
    where
        V: Drop,
        ensures entries { OnOk result (self.new ≡ insert_entry compares self.old name value) }
        ensures kept { OnErr result (self.new ≡ self.old) }
    {
        self.stored.set(self.alloc, name, value)
    }

    /// Puts the value at a name that is above all others. `NoMemory` where the map cannot grow; it
    /// is unchanged then.
    pub(crate) fn push_last(&mut self, name: Name, value: V) -> Result<(), NoMemory>
    where
        V: Drop,
        requires { Ascend (self.old ++ (name, value) ∷ []) }
        ensures last { OnOk result (self.new ≡ self.old ++ (name, value) ∷ []) }
        ensures kept { OnErr result (self.new ≡ self.old) }
    {
        self.stored.push_last(self.alloc, name, value)
    }

    /// Takes the name out, and gives its value. `None` exactly where the map lacks the name.
    pub fn remove(&mut self, name: &str) -> Option<V>
    where
        V: Drop,
        ensures value { result ≡ lookup (is_at (compares name.now)) self.old }
        ensures entries { self.new ≡ remove_entry (is_at (compares name.now)) self.old }
    {
        self.stored.remove(name)
    }
}
