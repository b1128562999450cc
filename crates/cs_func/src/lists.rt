//! The functions of lists.
ghost use Rattle.std.specs.Prelude.{◌≡◌, [], not, filter, IfOk};
ghost use Rattle.cs_value.specs.View.{tree, list_tree};
ghost use Rattle.cs_func.specs.Lists.{count, defined, compact, unique, distinct};
ghost use Rattle.cs_value.specs.Words.{is_null};

use crate::seen::Seen;
use cs_value::{NoMemory, Val};
use std::alloc::Global;

pub(crate) fn count(x: &Val) -> Val
    ensures { tree result ≡ count (tree x.now) }
{
    match x {
        Val::List(items) => Val::Num(items.len() as i64),
        _ => Val::Null,
    }
}

pub(crate) fn defined(x: &Val) -> Val
    ensures { tree result ≡ defined (tree x.now) }
{
    Val::Bool(!matches!(x, Val::Null))
}

pub(crate) fn compact(alloc: Global, x: &Val) -> Result<Val, NoMemory>
    ensures { IfOk result (λ v. tree v ≡ compact (tree x.now)) }
{
    match x {
        Val::List(items) => Ok(Val::List(without_nulls(alloc, items)?)),
        _ => Ok(Val::Null),
    }
}

fn without_nulls(alloc: Global, items: &Vec<Val>) -> Result<Vec<Val>, NoMemory>
    ensures { IfOk result
        (λ v. list_tree v.items ≡ filter (λ t. not (is_null t)) (list_tree items.now.items)) }
{
    let mut kept = Vec::new(alloc);
    for item in items {
        if !is_null(item) {
            kept.push(item.copy(alloc)?)?;
        }
    }
    Ok(kept)
}

fn is_null(val: &Val) -> bool
    ensures { result ≡ is_null (tree val.now) }
{
    matches!(val, Val::Null)
}

pub(crate) fn unique(alloc: Global, x: &Val) -> Result<Val, NoMemory>
    ensures { IfOk result (λ v. tree v ≡ unique (tree x.now)) }
{
    match x {
        Val::List(items) => Ok(Val::List(distinct(alloc, items)?)),
        _ => Ok(Val::Null),
    }
}

fn distinct(alloc: Global, items: &Vec<Val>) -> Result<Vec<Val>, NoMemory>
    ensures { IfOk result (λ v. list_tree v.items ≡ distinct [] (list_tree items.now.items)) }
{
    let mut seen = Seen::new(alloc);
    let mut kept = Vec::new(alloc);
    for item in items {
        if seen.add(item)? {
            kept.push(item.copy(alloc)?)?;
        }
    }
    Ok(kept)
}
