//! The pairs of a large map in a tree.
ghost use Rattle.std.specs.Prelude.{◌≡◌, IfOk, IfErr, OnOk, OnErr};
ghost use Rattle.std.specs.Map.{lookup, remove_entry};
ghost use Rattle.std.specs.BTreeMap.{insert_entry, is_at};
ghost use Rattle.std.specs.Option.{option_copied};
ghost use Rattle.cs_value.specs.Entries.{compares, named};

use super::name::Name;
use crate::memory::NoMemory;
use crate::txt::Txt;
use std::alloc::Global;
use std::collections::BTreeMap;

/// The value of the name. `None` exactly where the tree lacks the name.
pub(super) fn get<'a, V>(tree: &'a BTreeMap<String, V>, name: &str) -> Option<&'a V>
    ensures { option_copied result ≡ lookup (is_at (compares name.now)) (named tree.now.entries) }
{
    tree.get(name)
}

/// Takes the name out, and gives its value. `None` exactly where the tree lacks the name.
pub(super) fn take<V: Drop>(tree: &mut BTreeMap<String, V>, name: &str) -> Option<V>
    ensures value { result ≡ lookup (is_at (compares name.now)) (named tree.old.entries) }
    ensures left { named tree.new.entries
        ≡ remove_entry (is_at (compares name.now)) (named tree.old.entries) }
{
    tree.remove(name)
}

/// Puts the value at the name, and gives back the value that it replaces. `NoMemory` where the tree
/// cannot grow; it is unchanged then.
pub(super) fn put<V: Drop>(
    alloc: Global,
    tree: &mut BTreeMap<String, V>,
    name: Txt,
    value: V,
) -> Result<Option<V>, NoMemory>
    ensures old { IfOk result
        (λ old. old ≡ lookup (is_at (compares name)) (named tree.old.entries)) }
    ensures entries { OnOk result
        (named tree.new.entries ≡ insert_entry compares (named tree.old.entries) name value) }
    ensures kept { OnErr result (tree.new.entries ≡ tree.old.entries) }
{
    let key = name.into_string(alloc)?;
    match tree.insert(key, value) {
        Ok(old) => Ok(old),
        Err(_) => Err(NoMemory),
    }
}

/// Puts the value at a copy of the name. The value comes back where the tree cannot grow.
pub(super) fn enter<V: Drop>(
    alloc: Global,
    tree: &mut BTreeMap<String, V>,
    name: &Name,
    value: V,
) -> Result<(), V>
    ensures entries { OnOk result
        (named tree.new.entries ≡ insert_entry compares (named tree.old.entries) name.now value) }
    ensures kept { OnErr result (tree.new.entries ≡ tree.old.entries) }
    ensures value { IfErr result (λ v. v ≡ value) }
{
    let Ok(key) = String::from_str(alloc, name.as_str()) else {
        return Err(value);
    };
    match tree.insert(key, value) {
        Ok(old) => {
            drop(old);
            Ok(())
        }
        Err(refused) => {
            let (_, value) = refused.value;
            Err(value)
        }
    }
}
