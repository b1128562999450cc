//! A copy of a value.
ghost use Rattle.std.specs.Prelude.{◌≡◌, IfOk};
ghost use Rattle.cs_value.specs.View.{tree, fields, list_tree};

use crate::memory::NoMemory;
use crate::val::{Fields, Val};
use std::alloc::Global;

#[cycle(copy)]
pub(crate) fn copy(alloc: Global, value: &Val) -> Result<Val, NoMemory>
    ensures { IfOk result (λ v. tree v ≡ tree value.now) }
{
    match value {
        Val::Null => Ok(Val::Null),
        Val::Bool(b) => Ok(Val::Bool(*b)),
        Val::Num(n) => Ok(Val::Num(*n)),
        Val::Text(text) => Ok(Val::Text(text.copy(alloc)?)),
        Val::List(items) => Ok(Val::List(copy_items(alloc, items)?)),
        Val::Obj(object) => Ok(Val::Obj(copy_fields(alloc, object)?)),
    }
}

#[cycle(copy)]
fn copy_items(alloc: Global, items: &Vec<Val>) -> Result<Vec<Val>, NoMemory>
    ensures { IfOk result (λ v. list_tree v.items ≡ list_tree items.now.items) }
{
    let Ok(mut copies) = Vec::with_capacity(alloc, items.len()) else {
        return Err(NoMemory);
    };
    for item in items {
        copies.push(copy(alloc, item)?)?;
    }
    Ok(copies)
}

#[cycle(copy)]
fn copy_fields(alloc: Global, object: &Fields) -> Result<Fields, NoMemory>
    ensures { IfOk result (λ f. fields f ≡ fields object.now) }
{
    let mut copies = Fields::with_capacity(alloc, object.pairs.len())?;
    let mut pairs = object.pairs.iter();
    while let Some((name, member)) = pairs.next_copied(alloc)? {
        copies.pairs.push_last(name, copy(alloc, member)?)?;
    }
    Ok(copies)
}
