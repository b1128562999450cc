//! The pairs of a small map in a vector, in ascending order of their names.
ghost use Rattle.std.specs.Prelude.{◌≡◌, ◌≤◌, length, IfOk, OnOk, OnErr};
ghost use Rattle.std.specs.List.{insert};
ghost use Rattle.std.specs.List.Sorted.{IsSearchInRange};
ghost use Rattle.std.specs.Map.{lookup, remove_entry};
ghost use Rattle.std.specs.BTreeMap.{insert_entry, is_at};
ghost use Rattle.std.specs.Option.{option_copied};
ghost use Rattle.std_collections.specs.Layout.BTreeMap.{seek};
ghost use Rattle.cs_value.specs.Entries.{Ascend, compares};

use super::name::Name;
use crate::memory::NoMemory;
use crate::txt::Txt;
use crate::txt::order::compared;
use std::alloc::Global;
use std::cmp::Ordering;
use std::mem;

// A full vector takes room for so many pairs more.
const STEP: usize = 4;

/// The place of the name, or else where it would go. The search stops at the first name that is not
/// below it.
pub(super) fn place<V>(row: &[(Name, V)], name: &str) -> Result<usize, usize>
    ensures place { result ≡ seek (compares name.now) row.now }
    ensures within { IsSearchInRange result (length row.now) }
{
    for at in 0..row.len() {
        match compared(name, row[at].0.as_str()) {
            Ordering::Less => return Err(at),
            Ordering::Equal => return Ok(at),
            Ordering::Greater => {}
        }
    }
    Err(row.len())
}

/// The value of the name. `None` exactly where the row lacks the name. It asks whether names are
/// equal and not how they are ordered, since most that differ do so in their lengths or ends.
pub(super) fn get<'a, V>(row: &'a [(Name, V)], name: &str) -> Option<&'a V>
    ensures { option_copied result ≡ lookup (is_at (compares name.now)) row.now }
{
    for (other, value) in row {
        if other.is(name) {
            return Some(value);
        }
    }
    None
}

/// The same as [`get`], with a look at the place first at which the name was found last.
pub(super) fn find<'a, V>(row: &'a [(Name, V)], name: &Txt) -> Option<&'a V>
    requires { Ascend row.now }
    ensures { option_copied result ≡ lookup (is_at (compares name.now)) row.now }
{
    if let Some((other, value)) = row.get(name.place()) {
        if other.is(name.as_str()) {
            return Some(value);
        }
    }
    search(row, name)
}

// Seeks the name among all, and notes the place where it stands.
fn search<'a, V>(row: &'a [(Name, V)], name: &Txt) -> Option<&'a V>
    requires { Ascend row.now }
    ensures { option_copied result ≡ lookup (is_at (compares name.now)) row.now }
{
    match place(row, name.as_str()) {
        Ok(at) => {
            name.note(at);
            Some(&row[at].1)
        }
        Err(_) => None,
    }
}

/// Takes the name out, and gives its value. `None` exactly where the row lacks the name.
pub(super) fn take<V: Drop>(row: &mut Vec<(Name, V)>, name: &str) -> Option<V>
    requires { Ascend row.old.items }
    ensures value { result ≡ lookup (is_at (compares name.now)) row.old.items }
    ensures left { row.new.items ≡ remove_entry (is_at (compares name.now)) row.old.items }
{
    match place(row.as_slice(), name) {
        Ok(at) => {
            let (_, value) = row.remove(at);
            Some(value)
        }
        Err(_) => None,
    }
}

/// The same as [`place`], with one look at the last name alone where the name is above it.
fn gap<V>(row: &[(Name, V)], name: &str) -> Result<usize, usize>
    requires { Ascend row.now }
    ensures place { result ≡ seek (compares name.now) row.now }
    ensures within { IsSearchInRange result (length row.now) }
{
    if let Some((last, _)) = row.last() {
        if let Ordering::Greater = compared(name, last.as_str()) {
            return Err(row.len());
        }
    }
    place(row, name)
}

/// The same pairs in a vector that has room for so many more and no others.
pub(super) fn fitted<V: Drop>(
    alloc: Global,
    row: Vec<(Name, V)>,
    more: usize,
) -> Result<Vec<(Name, V)>, NoMemory>
    ensures { IfOk result (λ fitting. fitting.items ≡ row.items) }
{
    let mut row = row;
    let mut fitting = Vec::with_capacity(alloc, row.len().saturating_add(more))?;
    fitting.append(&mut row)?;
    Ok(fitting)
}

// Room for one pair more.
fn make_room<V>(row: &mut Vec<(Name, V)>) -> Result<(), NoMemory>
    ensures { row.new.items ≡ row.old.items }
{
    if row.len() == row.capacity() {
        row.reserve_exact(STEP)?;
    }
    Ok(())
}

// Puts the pair at the place. At the end that moves no other pair.
fn put_in<V: Drop>(row: &mut Vec<(Name, V)>, at: usize, pair: (Name, V)) -> Result<(), NoMemory>
    requires { at ≤ length row.old.items }
    ensures items { OnOk result (row.new.items ≡ insert row.old.items at pair) }
    ensures kept { OnErr result (row.new.items ≡ row.old.items) }
{
    if at == row.len() {
        row.push(pair)?;
    } else {
        row.insert(at, pair)?;
    }
    Ok(())
}

// Puts a pair in where its name would go.
fn enter<V: Drop>(
    alloc: Global,
    row: &mut Vec<(Name, V)>,
    at: usize,
    name: Txt,
    value: V,
) -> Result<(), NoMemory>
    requires { at ≤ length row.old.items }
    ensures items { OnOk result (row.new.items ≡ insert row.old.items at (name, value)) }
    ensures kept { OnErr result (row.new.items ≡ row.old.items) }
{
    let name = Name::of(alloc, name)?;
    make_room(row)?;
    put_in(row, at, (name, value))
}

/// Puts the value at the name, and gives back the value that it replaces. `NoMemory` where the
/// vector cannot grow, or a long name has no room; the vector is unchanged then.
pub(super) fn put<V: Drop>(
    alloc: Global,
    row: &mut Vec<(Name, V)>,
    name: Txt,
    value: V,
) -> Result<Option<V>, NoMemory>
    requires { Ascend row.old.items }
    ensures old { IfOk result (λ old. old ≡ lookup (is_at (compares name)) row.old.items) }
    ensures entries { OnOk result
        (row.new.items ≡ insert_entry compares row.old.items name value) }
    ensures kept { OnErr result (row.new.items ≡ row.old.items) }
{
    match gap(row.as_slice(), name.as_str()) {
        Ok(at) => Ok(Some(mem::replace(&mut row[at].1, value))),
        Err(at) => {
            enter(alloc, row, at, name, value)?;
            Ok(None)
        }
    }
}

/// Puts the value at the name, in the place of one that stood there. `NoMemory` as [`put`] says.
pub(super) fn set<V: Drop>(
    alloc: Global,
    row: &mut Vec<(Name, V)>,
    name: Txt,
    value: V,
) -> Result<(), NoMemory>
    requires { Ascend row.old.items }
    ensures entries { OnOk result
        (row.new.items ≡ insert_entry compares row.old.items name value) }
    ensures kept { OnErr result (row.new.items ≡ row.old.items) }
{
    match gap(row.as_slice(), name.as_str()) {
        Ok(at) => {
            row[at].1 = value;
            Ok(())
        }
        Err(at) => enter(alloc, row, at, name, value),
    }
}
