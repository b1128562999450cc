//! The patch that stands in a mutation.
ghost use Rattle.std.specs.Prelude.{IfOk};
ghost use Rattle.cs_value.specs.View.{fields};
ghost use Rattle.cs_patch.specs.View.{patch, HasNumbers};
ghost use Rattle.cs_body.specs.Body.{patch_in};
ghost use Rattle.cs_body.specs.Taken.{IsPart};

use crate::insert::take_insert;
use crate::parts::{take_numbers, take_text_or_none, take_texts, take_values};
use crate::txn::TxnFault;
use cs_patch::Patch;
use cs_value::Fields;
use std::alloc::Global;

pub(crate) fn read_patch(alloc: Global, mut object: Fields) -> Result<Patch, TxnFault>
    ensures read { IsPart patch result (patch_in (fields object)) }
    ensures numbers { IfOk result HasNumbers }
{
    let if_revision = take_text_or_none(&mut object, "ifRevisionID")?;
    let set_if_missing = take_values(alloc, &mut object, "setIfMissing")?;
    let set = take_values(alloc, &mut object, "set")?;
    let unset = take_texts(alloc, &mut object, "unset")?;
    let inc = take_numbers(alloc, &mut object, "inc")?;
    let dec = take_numbers(alloc, &mut object, "dec")?;
    let insert = take_insert(&mut object)?;
    Ok(Patch {
        if_revision,
        set_if_missing,
        set,
        unset,
        inc,
        dec,
        insert,
    })
}
