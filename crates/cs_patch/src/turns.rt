//! The paths of an operation, each on the outcome of the one before.
ghost use Rattle.std.specs.Prelude.{map};
ghost use Rattle.cs_value.specs.View.{tree};
ghost use Rattle.cs_patch.specs.Operations.{set_path, set_missing_path, unset_path, inc_path, dec_path};
ghost use Rattle.cs_patch.specs.Patched.{in_turn};
ghost use Rattle.cs_patch.specs.Entries.{value_at, removal_at, number_at};
ghost use Rattle.cs_patch.specs.Outcomes.{Tells};

use crate::count::{dec, inc};
use crate::entries::{NumberAt, RemovalAt, ValueAt};
use crate::fault::PatchFault;
use crate::set::{set, set_if_missing};
use crate::unset::unset;
use cs_value::Val;
use std::alloc::Global;

pub(crate) fn set_all_missing(
    alloc: Global,
    val: &mut Val,
    entries: &[ValueAt<'_>],
) -> Result<(), PatchFault>
    ensures { Tells result (tree val.new)
        (in_turn set_missing_path (map value_at entries.now) (tree val.old)) }
{
    for entry in entries {
        set_if_missing(alloc, val, entry)?;
    }
    Ok(())
}

pub(crate) fn set_all(
    alloc: Global,
    val: &mut Val,
    entries: &[ValueAt<'_>],
) -> Result<(), PatchFault>
    ensures { Tells result (tree val.new)
        (in_turn set_path (map value_at entries.now) (tree val.old)) }
{
    for entry in entries {
        set(alloc, val, entry)?;
    }
    Ok(())
}

pub(crate) fn unset_all(
    alloc: Global,
    val: &mut Val,
    entries: &[RemovalAt<'_>],
) -> Result<(), PatchFault>
    ensures { Tells result (tree val.new)
        (in_turn unset_path (map removal_at entries.now) (tree val.old)) }
{
    for entry in entries {
        unset(alloc, val, entry)?;
    }
    Ok(())
}

pub(crate) fn inc_all(
    alloc: Global,
    val: &mut Val,
    entries: &[NumberAt<'_>],
) -> Result<(), PatchFault>
    ensures { Tells result (tree val.new)
        (in_turn inc_path (map number_at entries.now) (tree val.old)) }
{
    for entry in entries {
        inc(alloc, val, entry)?;
    }
    Ok(())
}

pub(crate) fn dec_all(
    alloc: Global,
    val: &mut Val,
    entries: &[NumberAt<'_>],
) -> Result<(), PatchFault>
    ensures { Tells result (tree val.new)
        (in_turn dec_path (map number_at entries.now) (tree val.old)) }
{
    for entry in entries {
        dec(alloc, val, entry)?;
    }
    Ok(())
}
