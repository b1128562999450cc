//! The texts of a patch, read as paths.
ghost use Rattle.std.specs.Prelude.{◌≡◌, ◌<◌, ◌^◌, ◌∷◌, [], None, map, option_map, length, IfOk, IfErr, OnOk};
ghost use Rattle.cs_value.specs.Tree.{attributes};
ghost use Rattle.cs_value.specs.View.{tree, fields};
ghost use Rattle.cs_jsonmatch.specs.Verdict.{spelled, path_verdict};
ghost use Rattle.cs_jsonmatch.specs.View.{path};
ghost use Rattle.cs_patch.specs.Patched.{first_fault};
ghost use Rattle.cs_patch.specs.View.{numbers, insertion};
ghost use Rattle.cs_patch.specs.Entries.{value_at as value_word, removal_at as removal_word, number_at as number_word, insertion_at};
ghost use Rattle.cs_patch.specs.Faults.{IsFirstFault};
ghost use Rattle.cs_patch.specs.Readings.{AreShort, names_of, numbered, paths_of};

use crate::entries::{InsertAt, NumberAt, RemovalAt, ValueAt};
use crate::fault::PathsFault;
use crate::lists::lists_by;
use crate::patch::Insert;
use cs_jsonmatch::{JsonPath, PathFault};
use cs_targets::take_run;
use cs_value::{Fields, NoMemory, Txt, Val};
use std::alloc::Global;

// The path that a text is, or the fault that tells the text.
fn read_path(alloc: Global, text: &str) -> Result<JsonPath, PathsFault>
    requires { length text.now < 2 ^ 32 }
    ensures read { IfOk result (λ p. path_verdict text.now ≡ spelled (path p)) }
    ensures refused { IfErr result (λ f. IsFirstFault f (text.now ∷ [])) }
{
    match JsonPath::read(alloc, text) {
        Ok(path) => Ok(path),
        Err(PathFault::BadPath { at }) => Err(PathsFault::BadPath {
            path: Txt::copy_of(alloc, text)?,
            at,
        }),
        Err(PathFault::NoMemory) => Err(PathsFault::NoMemory),
    }
}

fn value_at<'p>(alloc: Global, text: &'p str, new: &'p Val) -> Result<ValueAt<'p>, PathsFault>
    requires { length text.now < 2 ^ 32 }
    ensures read { IfOk result (λ e. value_word e ≡ (text.now, tree new.now)) }
    ensures spelled { OnOk result (first_fault (text.now ∷ []) ≡ None) }
    ensures refused { IfErr result (λ f. IsFirstFault f (text.now ∷ [])) }
{
    let mut prefix = read_path(alloc, text)?;
    let names = take_run(alloc, &mut prefix.steps)?;
    Ok(ValueAt {
        text,
        prefix,
        names,
        new,
    })
}

fn number_at<'p>(alloc: Global, text: &'p str, val: &'p Val) -> Result<NumberAt<'p>, PathsFault>
    requires { length text.now < 2 ^ 32 }
    ensures read { IfOk result (λ e. number_word e ≡ numbered (text.now, tree val.now)) }
    ensures spelled { OnOk result (first_fault (text.now ∷ []) ≡ None) }
    ensures refused { IfErr result (λ f. IsFirstFault f (text.now ∷ [])) }
{
    let path = read_path(alloc, text)?;
    let number = if let Val::Num(number) = val {
        *number
    } else {
        0
    };
    Ok(NumberAt { text, path, number })
}

fn removal_at<'p>(alloc: Global, text: &'p str) -> Result<RemovalAt<'p>, PathsFault>
    requires { length text.now < 2 ^ 32 }
    ensures read { IfOk result (λ e. removal_word e ≡ text.now) }
    ensures spelled { OnOk result (first_fault (text.now ∷ []) ≡ None) }
    ensures refused { IfErr result (λ f. IsFirstFault f (text.now ∷ [])) }
{
    let path = read_path(alloc, text)?;
    Ok(RemovalAt { text, path })
}

pub(crate) fn values_at<'p>(
    alloc: Global,
    values: &'p Fields,
) -> Result<Vec<ValueAt<'p>>, PathsFault>
    requires { AreShort (names_of (attributes (fields values.now))) }
    ensures read { IfOk result (λ es. map value_word es.items ≡ attributes (fields values.now)) }
    ensures spelled { OnOk result
        (first_fault (names_of (attributes (fields values.now))) ≡ None) }
    ensures refused { IfErr result
        (λ f. IsFirstFault f (names_of (attributes (fields values.now)))) }
{
    let mut entries = Vec::new(alloc);
    for (text, new) in values.pairs.iter() {
        entries.push(value_at(alloc, text, new)?)?;
    }
    Ok(entries)
}

pub(crate) fn numbers_at<'p>(
    alloc: Global,
    values: &'p Fields,
) -> Result<Vec<NumberAt<'p>>, PathsFault>
    requires { AreShort (names_of (numbers (fields values.now))) }
    ensures read { IfOk result (λ es. map number_word es.items ≡ numbers (fields values.now)) }
    ensures spelled { OnOk result (first_fault (names_of (numbers (fields values.now))) ≡ None) }
    ensures refused { IfErr result
        (λ f. IsFirstFault f (names_of (numbers (fields values.now)))) }
{
    let mut entries = Vec::new(alloc);
    for (text, val) in values.pairs.iter() {
        entries.push(number_at(alloc, text, val)?)?;
    }
    Ok(entries)
}

pub(crate) fn removals_at<'p>(
    alloc: Global,
    texts: &'p [Txt],
) -> Result<Vec<RemovalAt<'p>>, PathsFault>
    requires { AreShort texts.now }
    ensures read { IfOk result (λ es. map removal_word es.items ≡ texts.now) }
    ensures spelled { OnOk result (first_fault texts.now ≡ None) }
    ensures refused { IfErr result (λ f. IsFirstFault f texts.now) }
{
    let mut entries = Vec::new(alloc);
    for text in texts {
        entries.push(removal_at(alloc, text.as_str())?)?;
    }
    Ok(entries)
}

pub(crate) fn insert_at<'p>(
    alloc: Global,
    insert: &'p Option<Insert>,
) -> Result<Option<InsertAt<'p>>, PathsFault>
    requires { AreShort (paths_of insert.now) }
    ensures read { IfOk result
        (λ e. option_map insertion_at e ≡ option_map insertion insert.now) }
    ensures spelled { OnOk result (first_fault (paths_of insert.now) ≡ None) }
    ensures refused { IfErr result (λ f. IsFirstFault f (paths_of insert.now)) }
{
    let Some(insert) = insert else {
        return Ok(None);
    };
    let path = read_path(alloc, insert.path.as_str())?;
    let lists = lists_by(alloc, path, insert.side, &insert.items)?;
    Ok(Some(InsertAt {
        text: insert.path.as_str(),
        side: insert.side,
        items: &insert.items,
        lists,
    }))
}
