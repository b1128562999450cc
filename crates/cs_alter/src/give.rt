//! A value put where names lead from another one, with objects made on the way.
ghost use Rattle.std.specs.Prelude.{◌≡◌, IfOk, option_map, unwrap_or};
ghost use Rattle.cs_value.specs.Tree.{null};
ghost use Rattle.cs_value.specs.View.{tree, fields};
ghost use Rattle.cs_alter.specs.Within.{given, object_pairs};

use cs_value::{Fields, NoMemory, Txt, Val};
use std::alloc::Global;

fn object_of(alloc: Global, val: Val) -> Fields
    ensures { fields result ≡ object_pairs (tree val) }
{
    match val {
        Val::Obj(object) => object,
        _ => Fields::new(alloc),
    }
}

fn or_null(val: Option<Val>) -> Val
    ensures { tree result ≡ unwrap_or (option_map tree val) null }
{
    match val {
        Some(val) => val,
        None => Val::Null,
    }
}

// The member is taken out, changed and put back; null holds its place meanwhile. Under the last
// name the value is put at once.
pub(crate) fn give(alloc: Global, val: Val, names: &[Txt], new: Val) -> Result<Val, NoMemory>
    ensures { IfOk result (λ v. tree v ≡ given names.now (tree new) (tree val)) }
{
    let Some((name, rest)) = names.split_first() else {
        return Ok(new);
    };
    let mut object = object_of(alloc, val);
    if rest.is_empty() {
        object.set(name.copy(alloc)?, new)?;
        return Ok(Val::Obj(object));
    }
    let old = object.put(name.copy(alloc)?, Val::Null)?;
    let inner = give(alloc, or_null(old), rest, new)?;
    object.set(name.copy(alloc)?, inner)?;
    Ok(Val::Obj(object))
}
