//! The marks that a patch leaves on a document.
ghost use Rattle.std.specs.Prelude.{◌≡◌, IfOk};
ghost use Rattle.cs_value.specs.View.{tree};
ghost use Rattle.cs_patch.specs.Patched.{stamped};

use cs_value::{NoMemory, Txt, Val};
use std::alloc::Global;

pub(crate) fn stamp(alloc: Global, val: Val, tx: &Txt, moment: &Txt) -> Result<Val, NoMemory>
    ensures { IfOk result (λ v. tree v ≡ stamped tx.now moment.now (tree val)) }
{
    match val {
        Val::Obj(fields) => {
            let mut object = fields;
            let rev = tx.copy(alloc)?;
            object.set(Txt::copy_of(alloc, "_rev")?, Val::Text(rev))?;
            let updated = moment.copy(alloc)?;
            object.set(Txt::copy_of(alloc, "_updatedAt")?, Val::Text(updated))?;
            Ok(Val::Obj(object))
        }
        other => Ok(other),
    }
}
