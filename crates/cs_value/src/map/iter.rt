//! The iterators of an ordered map. Contracts see each as the list of the pairs that are left.
ghost use Rattle.std.specs.Prelude.{◌≡◌, ◌<◌, ◌^◌, [], ◌∷◌, length, IfOk, MatchOption};
ghost use Rattle.std.specs.Iterator.{at_most};
ghost use Rattle.std_collections.specs.Map.Iter.{TakesFirst, deref_pair};
ghost use Rattle.cs_value.specs.Entries.{named};

use super::name::Name;
use crate::memory::NoMemory;
use crate::txt::Txt;
use std::alloc::Global;
use std::collections::{BTreeMap, btree_map};
use std::marker::Model;
use std::{slice, vec};

#[derive(Drop)]
enum Lent<'a, V> {
    LentRow(slice::Iter<'a, (Name, V)>),
    LentTree(btree_map::Iter<'a, String, V>),
}

/// The pairs of an ordered map, lent in the order of their names.
#[derive(Drop)]
pub struct Iter<'a, V> {
    form: Lent<'a, V>,
}

impl<'a, V> Model for Iter<'a, V> {
    ghost use Rattle.std.specs.Prelude.{List};
    ghost use Rattle.std.specs.Coded.{coded_list, coded×};
    ghost use Rattle.cs_value.specs.Entries.{Name, name_code};

    ghost Value = { List (Name × V) };

    ghost coded = { coded_list (coded× name_code V.code) };

    ghost use Rattle.cs_value.specs.Left.{lent};

    ghost view = { λ i. lent i.form };
}

impl<'a, V> Iter<'a, V> {
    pub(super) fn of_row(row: &'a [(Name, V)]) -> Iter<'a, V>
        ensures rest { result ≡ row.now }
        ensures fits { length row.now < 2 ^ 63 }
    {
        Iter {
            form: Lent::LentRow(row.iter()),
        }
    }

    pub(super) fn of_tree(tree: &'a BTreeMap<String, V>) -> Iter<'a, V>
        ensures rest { result ≡ named tree.now.entries }
        ensures fits { length tree.now.entries < 2 ^ 63 }
    {
        Iter {
            form: Lent::LentTree(tree.iter()),
        }
    }

    /// The next pair, with a copy of its name. `NoMemory` where the allocator has no room for it.
    pub(crate) fn next_copied(&mut self, alloc: Global) -> Result<Option<(Name, &'a V)>, NoMemory>
        ensures { IfOk result (λ next. MatchOption next
            ((self.old ≡ []) × (self.new ≡ []))
            (λ pair. self.old ≡ (pair.0, pair.1.now) ∷ self.new)) }
    {
        match &mut self.form {
            Lent::LentRow(pairs) => match pairs.next() {
                Some((name, value)) => Ok(Some((name.copy(alloc)?, value))),
                None => Ok(None),
            },
            Lent::LentTree(pairs) => match next_of_tree(pairs) {
                Some((name, value)) => {
                    Ok(Some((Name::of(alloc, Txt::copy_of(alloc, name)?)?, value)))
                }
                None => Ok(None),
            },
        }
    }
}

// The next pair of a tree. It stands apart so that the step in a vector, which almost all are, is
// short.
fn next_of_tree<'a, V>(pairs: &mut btree_map::Iter<'a, String, V>) -> Option<(&'a str, &'a V)>
    ensures { MatchOption result ((named pairs.old ≡ []) × (named pairs.new ≡ []))
        (λ pair. named pairs.old ≡ (pair.0.now, pair.1.now) ∷ named pairs.new) }
{
    match pairs.next() {
        Some((name, value)) => Some((name.as_str(), value)),
        None => None,
    }
}

impl<'a, V> Iterator for Iter<'a, V> {
    type Item = (&'a str, &'a V);

    ghost next_gives = { TakesFirst deref_pair };

    ghost remaining = { λ s. at_most (length s) };

    fn next(&mut self) -> Option<(&'a str, &'a V)> {
        match &mut self.form {
            Lent::LentRow(pairs) => match pairs.next() {
                Some((name, value)) => Some((name.as_str(), value)),
                None => None,
            },
            Lent::LentTree(pairs) => next_of_tree(pairs),
        }
    }
}

#[derive(Drop)]
enum Given<V> {
    GivenRow(vec::IntoIter<(Name, V)>),
    GivenTree(btree_map::IntoIter<String, V>),
}

/// The pairs of an ordered map by value, in the order of their names.
#[derive(Drop)]
pub struct IntoIter<V> {
    form: Given<V>,
}

impl<V> Model for IntoIter<V> {
    ghost use Rattle.std.specs.Prelude.{List};
    ghost use Rattle.std.specs.Coded.{coded_list, coded×};
    ghost use Rattle.cs_value.specs.Entries.{Name, name_code};

    ghost Value = { List (Name × V) };

    ghost coded = { coded_list (coded× name_code V.code) };

    ghost use Rattle.cs_value.specs.Left.{given};

    ghost view = { λ i. given i.form };
}

impl<V> IntoIter<V> {
    pub(super) fn of_row(row: Vec<(Name, V)>) -> IntoIter<V>
        ensures { result ≡ row.items }
    {
        IntoIter {
            form: Given::GivenRow(row.into_iter()),
        }
    }

    pub(super) fn of_tree(tree: BTreeMap<String, V>) -> IntoIter<V>
    where
        V: Drop,
        ensures { result ≡ named tree.entries }
    {
        IntoIter {
            form: Given::GivenTree(tree.into_iter()),
        }
    }
}

impl<V: Drop> Iterator for IntoIter<V> {
    type Item = (Txt, V);

    ghost next_gives = { TakesFirst (λ p. p) };

    ghost remaining = { λ s. at_most (length s) };

    fn next(&mut self) -> Option<(Txt, V)> {
        match &mut self.form {
            Given::GivenRow(pairs) => match pairs.next() {
                Some((name, value)) => Some((name.into_txt(), value)),
                None => None,
            },
            Given::GivenTree(pairs) => match pairs.next() {
                Some((name, value)) => Some((Txt::from_string(name), value)),
                None => None,
            },
        }
    }
}
