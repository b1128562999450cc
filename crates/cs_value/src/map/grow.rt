//! How a full vector of pairs becomes a tree.
ghost use Rattle.std.specs.Prelude.{◌≡◌, ◌+◌, ◌≤◌, ◌<◌, [], ◌∷◌, ◌++◌, length, reverse, OnOk};
ghost use Rattle.std.specs.Vec.{vec_capacity};
ghost use Rattle.std.specs.Map.{keys_of};
ghost use Rattle.cs_value.specs.Entries.{Ascend, entries, named};

use super::name::Name;
use super::stored::Stored;
use super::tree;
use crate::memory::NoMemory;
use std::alloc::Global;
use std::collections::BTreeMap;

/// Moves the pairs of a vector into a tree. `NoMemory` where the tree cannot have them all; they
/// stand in the vector then, as before.
pub(super) fn grow<V: Drop>(alloc: Global, stored: &mut Stored<V>) -> Result<(), NoMemory>
    requires { Ascend (entries stored.old) }
    ensures { entries stored.new ≡ entries stored.old }
{
    let Stored::Few(row) = stored else {
        return Ok(());
    };
    let mut names = Vec::with_capacity(alloc, row.len())?;
    let mut tree = BTreeMap::new(alloc);
    if fill(alloc, row, &mut names, &mut tree).is_err() {
        refill(row, names, tree);
        return Err(NoMemory);
    }
    *stored = Stored::Many(tree);
    Ok(())
}

// Moves pairs from the end of the vector to the front of the tree, all of them if memory lasts, and
// their names as they were to the end of a list that has the room.
fn fill<V: Drop>(
    alloc: Global,
    row: &mut Vec<(Name, V)>,
    names: &mut Vec<Name>,
    tree: &mut BTreeMap<String, V>,
) -> Result<(), NoMemory>
    requires ascend { Ascend (row.old.items ++ named tree.old.entries) }
    requires fits { length row.old.items + length tree.old.entries ≤ vec_capacity row.old }
    requires room { length row.old.items + length names.old.items ≤ vec_capacity names.old }
    requires names { reverse names.old.items ≡ keys_of (named tree.old.entries) }
    ensures all { row.new.items ++ named tree.new.entries
        ≡ row.old.items ++ named tree.old.entries }
    ensures moved { OnOk result (row.new.items ≡ []) }
    ensures fits { length row.new.items + length tree.new.entries ≤ vec_capacity row.new }
    ensures names { reverse names.new.items ≡ keys_of (named tree.new.entries) }
{
    while let Some((name, value)) = row.pop() {
        if let Err(value) = tree::enter(alloc, tree, &name, value) {
            drop(row.push((name, value)));
            return Err(NoMemory);
        }
        keep(names, name);
    }
    Ok(())
}

// Puts the name at the end of the list, which has the room.
fn keep(names: &mut Vec<Name>, name: Name)
    requires { length names.old.items < vec_capacity names.old }
    ensures items { names.new.items ≡ names.old.items ++ name ∷ [] }
    ensures room { vec_capacity names.old ≤ vec_capacity names.new }
{
    drop(names.push(name));
}

// Moves the pairs of the tree back to the end of the vector, which has the room, under their names
// as they were, of which the first is last.
fn refill<V: Drop>(row: &mut Vec<(Name, V)>, names: Vec<Name>, tree: BTreeMap<String, V>)
    requires fits { length row.old.items + length tree.entries ≤ vec_capacity row.old }
    requires names { reverse names.items ≡ keys_of (named tree.entries) }
    ensures { row.new.items ≡ row.old.items ++ named tree.entries }
{
    let mut names = names;
    for (_, value) in tree {
        match names.pop() {
            Some(name) => drop(row.push((name, value))),
            None => unreachable!(),
        }
    }
}
