//! Documents changed by a patch.
ghost use Rattle.std.specs.Prelude.{◌≡◌, ◌≤◌, ◌<◌, ◌^◌, ◌+◌, List, true, Ok, Err, OnOk, IfErr, length};
ghost use Rattle.cs_value.specs.Tree.{Tree};
ghost use Rattle.cs_value.specs.View.{fields};
ghost use Rattle.cs_patch.specs.Faults.{IsPathsFault, IsPatchFault};
ghost use Rattle.cs_patch.specs.Operations.{Outcome, refused as refused_by};
ghost use Rattle.cs_patch.specs.Patched.{Patch as PlainPatch, paths, first_fault};
ghost use Rattle.cs_patch.specs.Read.{read_patch};
ghost use Rattle.cs_patch.specs.Readings.{ArePathsShort};
ghost use Rattle.cs_patch.specs.View.{patch as patch_of};
ghost use Rattle.cs_body.specs.Transaction.{asked};
ghost use Rattle.cs_body.specs.View.{aim};
ghost use Rattle.cs_txn.specs.Mutated.{Attempt, by_fault, by_outcome, edited, patched_all, patched_at, patched_by};
ghost use Rattle.cs_txn.specs.View.{IsTold};
ghost use Rattle.cs_txn.specs.Visits.{is_simple_aim, aim_cost, patch_cost};
ghost use Rattle.cs_txn.specs.Within.{IsShortAim};
ghost use Rattle.cs_working.specs.Working.{base, working as docs_of};

use crate::find::found;
use crate::why::Why;
use cs_body::Target;
use cs_patch::{Patch, PatchFault, PathsFault, ReadPatch};
use cs_value::{Fields, Steps, Txt};
use cs_working::Working;
use std::alloc::Global;
use std::collections::BTreeSet;
use std::sync::ledger::Ledger;

// Why the document of the id is not patched.
fn why_of(alloc: Global, id: &Txt, fault: PatchFault) -> Why
    ensures { (docs : List Tree) (o : Outcome) → IsPatchFault (λ r. o ≡ refused_by r) fault
        → IsTold (λ c. by_outcome id.now docs o ≡ Err c) result }
{
    let Ok(id) = id.copy(alloc) else {
        return Why::NoMemory;
    };
    match fault {
        PatchFault::Revision { expected, found } => Why::Revision {
            id,
            expected,
            found,
        },
        PatchFault::NotNumber { path } => Why::NotNumber { id, path },
        PatchFault::Overflow { path } => Why::Overflow { id, path },
        PatchFault::NotArray { path } => Why::NotArray { id, path },
        PatchFault::Immutable { name } => Why::Immutable { id, name },
        PatchFault::TooDeep => Why::DeepDocument,
        PatchFault::NoMemory => Why::NoMemory,
    }
}

// Why the paths of a patch are not read.
fn why_unread(fault: PathsFault) -> Why
    ensures { (next : Attempt) (p : PlainPatch) → IsPathsFault fault p
        → IsTold (λ c. by_fault next (first_fault (paths p)) ≡ Err c) result }
{
    match fault {
        PathsFault::BadPath { path, at } => Why::BadPath { path, at },
        PathsFault::NoMemory => Why::NoMemory,
    }
}

// Patches the document of the id.
fn patch_one(
    alloc: Global,
    working: &mut Working<'_>,
    id: &Txt,
    patch: &ReadPatch<'_>,
    tx: &Txt,
    moment: &Txt,
) -> Result<(), Why>
    ensures store { base working.new ≡ base working.old }
    ensures done { OnOk result (patched_at (read_patch patch.now) tx.now moment.now id.now
        (docs_of working.old) ≡ Ok (docs_of working.new)) }
    ensures refused { IfErr result (IsTold (λ c. patched_at (read_patch patch.now) tx.now
        moment.now id.now (docs_of working.old) ≡ Err c)) }
{
    let Some(before) = working.get(id) else {
        let id = id.copy(alloc)?;
        return Err(Why::Missing { id });
    };
    match patch.apply(alloc, before, tx, moment) {
        Ok(after) => {
            working.put(after)?;
            Ok(())
        }
        Err(fault) => Err(why_of(alloc, id, fault)),
    }
}

// Patches the documents of the ids, one after another, up to the first that is refused.
fn patch_all(
    alloc: Global,
    working: &mut Working<'_>,
    ids: &BTreeSet<Txt>,
    patch: &ReadPatch<'_>,
    tx: &Txt,
    moment: &Txt,
) -> Result<(), Why>
    ensures store { base working.new ≡ base working.old }
    ensures done { OnOk result (patched_all (read_patch patch.now) tx.now moment.now
        ids.now.keys (docs_of working.old) ≡ Ok (docs_of working.new)) }
    ensures refused { IfErr result (IsTold (λ c. patched_all (read_patch patch.now) tx.now
        moment.now ids.now.keys (docs_of working.old) ≡ Err c)) }
{
    for id in ids.iter() {
        patch_one(alloc, working, id, patch, tx, moment)?;
    }
    Ok(())
}

// Patches the documents that a query finds.
fn patch_found<L: Ledger>(
    alloc: Global,
    working: &mut Working<'_>,
    text: &Txt,
    params: &Fields,
    patch: &ReadPatch<'_>,
    tx: &Txt,
    moment: &Txt,
    steps: &mut Steps<L>,
) -> Result<(), Why>
    requires short { length text.now < 2 ^ 32 }
    ensures store { base working.new ≡ base working.old }
    ensures done { OnOk result (patched_by (read_patch patch.now) tx.now moment.now
        (docs_of working.old) (asked text.now (fields params.now)) ≡ Ok (docs_of working.new)) }
    ensures refused { IfErr result (IsTold (λ c. patched_by (read_patch patch.now) tx.now
        moment.now (docs_of working.old) (asked text.now (fields params.now)) ≡ Err c)) }
    ensures visits { is_simple_aim (asked text.now (fields params.now)) ≡ true → steps.new
        ≤ steps.old + aim_cost (docs_of working.old) (asked text.now (fields params.now)) }
{
    let ids = found(alloc, &*working, text, params, steps)?;
    patch_all(alloc, working, &ids, patch, tx, moment)
}

// Patches the documents that the target is meant for.
fn patch_target<L: Ledger>(
    alloc: Global,
    working: &mut Working<'_>,
    target: &Target,
    patch: &ReadPatch<'_>,
    tx: &Txt,
    moment: &Txt,
    steps: &mut Steps<L>,
) -> Result<(), Why>
    requires short { IsShortAim (aim target.now) }
    ensures store { base working.new ≡ base working.old }
    ensures done { OnOk result (patched_by (read_patch patch.now) tx.now moment.now
        (docs_of working.old) (aim target.now) ≡ Ok (docs_of working.new)) }
    ensures refused { IfErr result (IsTold (λ c. patched_by (read_patch patch.now) tx.now
        moment.now (docs_of working.old) (aim target.now) ≡ Err c)) }
    ensures visits { is_simple_aim (aim target.now) ≡ true → steps.new
        ≤ steps.old + aim_cost (docs_of working.old) (aim target.now) }
{
    match target {
        Target::Id(id) => patch_one(alloc, working, id, patch, tx, moment),
        Target::Query { text, params } => {
            patch_found(alloc, working, text, params, patch, tx, moment, steps)
        }
    }
}

/// Patches the documents that the target is meant for, by ascending id, or why that is refused:
/// `diffMatchPatch` before all else, then the first text that is no path, then what the documents
/// refuse. Each is patched as the dataset that is worked on has it, and its revision is the one
/// that it has there.
pub(crate) fn change<L: Ledger>(
    alloc: Global,
    working: &mut Working<'_>,
    target: &Target,
    patch: &Patch,
    diff: bool,
    tx: &Txt,
    moment: &Txt,
    steps: &mut Steps<L>,
) -> Result<(), Why>
    requires short { IsShortAim (aim target.now) }
    requires paths { ArePathsShort (patch_of patch.now) }
    ensures store { base working.new ≡ base working.old }
    ensures done { OnOk result (edited tx.now moment.now (docs_of working.old) (aim target.now)
        (patch_of patch.now) diff ≡ Ok (docs_of working.new)) }
    ensures refused { IfErr result (IsTold (λ c. edited tx.now moment.now (docs_of working.old)
        (aim target.now) (patch_of patch.now) diff ≡ Err c)) }
    ensures visits { is_simple_aim (aim target.now) ≡ true → steps.new ≤ steps.old
        + patch_cost (docs_of working.old) (aim target.now) (patch_of patch.now) diff }
{
    if diff {
        return Err(Why::Diff);
    }
    match ReadPatch::read(alloc, patch) {
        Ok(read) => patch_target(alloc, working, target, &read, tx, moment, steps),
        Err(fault) => Err(why_unread(fault)),
    }
}
