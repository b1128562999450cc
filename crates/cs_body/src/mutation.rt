//! The mutations of a body.
ghost use Rattle.std.specs.Prelude.{map, option_and_then, IfOk};
ghost use Rattle.cs_value.specs.Tree.{attributes};
ghost use Rattle.cs_value.specs.Words.{as_object};
ghost use Rattle.cs_value.specs.View.{tree, fields, list_tree};
ghost use Rattle.cs_body.specs.Body.{all_read, removal_in, change_in, action_at, sole_action};
ghost use Rattle.cs_body.specs.Body.{action as action_of};
ghost use Rattle.cs_body.specs.Taken.{IsPart};
ghost use Rattle.cs_body.specs.View.{action, AddsNumbers, AllAddNumbers};

use crate::patch::read_patch;
use crate::target::take_target;
use crate::txn::{Mutation, TxnFault};
use cs_value::{Fields, Val};
use std::alloc::Global;

// The keys that may stand beside `id` in a patch, and beside `query`.
const BESIDE_ID: [&str; 8] = [
    "ifRevisionID",
    "setIfMissing",
    "set",
    "unset",
    "inc",
    "dec",
    "insert",
    "diffMatchPatch",
];

const BESIDE_QUERY: [&str; 9] = [
    "params",
    "ifRevisionID",
    "setIfMissing",
    "set",
    "unset",
    "inc",
    "dec",
    "insert",
    "diffMatchPatch",
];

// A deletion: an object that has a target alone.
fn removal(alloc: Global, val: Val) -> Result<Mutation, TxnFault>
    ensures read { IsPart action result (option_and_then removal_in (as_object (tree val))) }
    ensures numbers { IfOk result AddsNumbers }
{
    let Val::Obj(mut object) = val else {
        return Err(TxnFault::BadCommand);
    };
    match take_target(alloc, &mut object, &[], &["params"]) {
        Some(target) => Ok(Mutation::Delete(target)),
        None => Err(TxnFault::BadCommand),
    }
}

fn change_in(alloc: Global, mut object: Fields) -> Result<Mutation, TxnFault>
    ensures read { IsPart action result (change_in (fields object)) }
    ensures numbers { IfOk result AddsNumbers }
{
    let diff = object.get("diffMatchPatch").is_some();
    let Some(target) = take_target(alloc, &mut object, &BESIDE_ID, &BESIDE_QUERY) else {
        return Err(TxnFault::BadCommand);
    };
    let patch = read_patch(alloc, object)?;
    Ok(Mutation::Change {
        target,
        patch,
        diff,
    })
}

// A change: an object that has a target and the parts of a patch.
fn change(alloc: Global, val: Val) -> Result<Mutation, TxnFault>
    ensures read { IsPart action result (option_and_then change_in (as_object (tree val))) }
    ensures numbers { IfOk result AddsNumbers }
{
    match val {
        Val::Obj(object) => change_in(alloc, object),
        _ => Err(TxnFault::BadCommand),
    }
}

// The mutation of a key and its value.
fn mutation_at(alloc: Global, key: &str, val: Val) -> Result<Mutation, TxnFault>
    ensures read { IsPart action result (action_at key.now (tree val)) }
    ensures numbers { IfOk result AddsNumbers }
{
    match key {
        "create" => Ok(Mutation::Create(val)),
        "createOrReplace" => Ok(Mutation::Replace(val)),
        "createIfNotExists" => Ok(Mutation::IfNone(val)),
        "delete" => removal(alloc, val),
        "patch" => change(alloc, val),
        _ => Err(TxnFault::BadCommand),
    }
}

// The mutation of an object's only key.
fn sole_mutation(alloc: Global, object: Fields) -> Result<Mutation, TxnFault>
    ensures read { IsPart action result (sole_action (attributes (fields object))) }
    ensures numbers { IfOk result AddsNumbers }
{
    let mut pairs = object.pairs.into_iter();
    let Some((key, val)) = pairs.next() else {
        return Err(TxnFault::BadCommand);
    };
    if pairs.next().is_some() {
        return Err(TxnFault::BadCommand);
    }
    mutation_at(alloc, key.as_str(), val)
}

// A mutation: an object with exactly one key.
fn mutation(alloc: Global, val: Val) -> Result<Mutation, TxnFault>
    ensures read { IsPart action result (action_of (tree val)) }
    ensures numbers { IfOk result AddsNumbers }
{
    match val {
        Val::Obj(object) => sole_mutation(alloc, object),
        _ => Err(TxnFault::BadCommand),
    }
}

// The mutations of a list, each of whose members must be one.
pub(crate) fn mutations(alloc: Global, members: Vec<Val>) -> Result<Vec<Mutation>, TxnFault>
    ensures read { IsPart (λ v. map action v.items) result
        (all_read action_of (list_tree members.items)) }
    ensures numbers { IfOk result (λ v. AllAddNumbers v.items) }
{
    let Ok(mut mutations) = Vec::with_capacity(alloc, members.len()) else {
        return Err(TxnFault::NoMemory);
    };
    for member in members {
        let next = mutation(alloc, member)?;
        if mutations.push(next).is_err() {
            return Err(TxnFault::NoMemory);
        }
    }
    Ok(mutations)
}
