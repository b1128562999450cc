//! By which of several keys a look-up goes: one under which few entries stand, and their places.
ghost use Rattle.std.specs.Prelude.{◌≡◌, IfOk, IfSome};
ghost use Rattle.cs_view.specs.declared.key.Key.TheVariants.{Id};
ghost use Rattle.cs_index.specs.Picking.{IsImplied, Narrow, places_in, under};

use crate::entry::Entry;
use cs_codes::Coding;
use cs_value::{NoMemory, Txt};
use cs_view::{Key, Scalar};
use std::alloc::Global;
use std::collections::BTreeSet;

// The places under the code, if they are at most so many. It looks at one entry more.
fn few_under(
    alloc: Global,
    entries: &BTreeSet<Entry>,
    code: u64,
    most: usize,
) -> Result<Option<Vec<u32>>, NoMemory>
    ensures { IfOk result (λ few. IfSome few
        (λ places. places.items ≡ places_in (under entries.now code))) }
{
    let mut places = Vec::new(alloc);
    let low = Entry { code, place: 0 };
    let high = Entry {
        code,
        place: 4_294_967_295,
    };
    for entry in entries.range(low..=high) {
        if places.len() == most {
            return Ok(None);
        }
        places.push(entry.place)?;
    }
    Ok(Some(places))
}

/// The id that is one of the keys, the first if there are several.
pub(crate) fn id_among(keys: &[Key]) -> Option<&Txt>
    ensures { IfSome result (λ id. IsImplied (Id id.now) keys.now) }
{
    for key in keys {
        if let Key::Id(id) = key {
            return Some(id);
        }
    }
    None
}

// Whether many documents are expected to have the key, as they have a type and a boolean, and as a
// list has several elements.
fn is_wide(key: &Key) -> bool {
    match key {
        Key::Path(names, scalar) => {
            matches!(scalar, Scalar::Bool(_))
                || names.len() == 1 && names.texts()[0].as_str() == "_type"
        }
        Key::Elem(_, _) => true,
        Key::All | Key::Id(_) | Key::Ref(_) => false,
    }
}

// The places under the first of the keys that are wide, or of the others, which the index keeps and
// under which at most so many entries stand.
fn first_of_few(
    alloc: Global,
    coding: &Coding,
    entries: &BTreeSet<Entry>,
    keys: &[Key],
    wide: bool,
    most: usize,
) -> Result<Option<Vec<u32>>, NoMemory>
    ensures { IfOk result (λ few. IfSome few
        (λ places. Narrow coding.now entries.now keys.now places.items)) }
{
    for key in keys {
        if is_wide(key) == wide && coding.codes(key) {
            if let Some(places) = few_under(alloc, entries, coding.key_code(key), most)? {
                return Ok(Some(places));
            }
        }
    }
    Ok(None)
}

// The places under a key that the index keeps and under which at most so many entries stand. Those
// that are not wide are tried first.
fn of_few(
    alloc: Global,
    coding: &Coding,
    entries: &BTreeSet<Entry>,
    keys: &[Key],
    most: usize,
) -> Result<Option<Vec<u32>>, NoMemory>
    ensures { IfOk result (λ few. IfSome few
        (λ places. Narrow coding.now entries.now keys.now places.items)) }
{
    match first_of_few(alloc, coding, entries, keys, false, most)? {
        Some(places) => Ok(Some(places)),
        None => first_of_few(alloc, coding, entries, keys, true, most),
    }
}

/// The places under one of the keys that the index keeps, under which hardly more entries stand
/// than under any other. To find them, no more than some twenty entries are looked at for each of
/// them and each key, or thirty where they are few. `None` where more than `most` entries stand
/// under each of them. `NoMemory` where the allocator has no room for them.
pub(crate) fn rarest(
    alloc: Global,
    coding: &Coding,
    entries: &BTreeSet<Entry>,
    keys: &[Key],
    most: usize,
) -> Result<Option<Vec<u32>>, NoMemory>
    ensures { IfOk result (λ few. IfSome few
        (λ places. Narrow coding.now entries.now keys.now places.items)) }
{
    for few in [32, 512, 8_192, 131_072] {
        if few >= most {
            break;
        }
        if let Some(places) = of_few(alloc, coding, entries, keys, few)? {
            return Ok(Some(places));
        }
    }
    of_few(alloc, coding, entries, keys, most)
}
