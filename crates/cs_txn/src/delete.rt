//! Documents taken away.
ghost use Rattle.std.specs.Prelude.{◌≡◌, ◌≤◌, ◌<◌, ◌^◌, ◌+◌, true, Ok, Err, OnOk, IfErr, length};
ghost use Rattle.cs_value.specs.View.{fields};
ghost use Rattle.cs_body.specs.Transaction.{asked};
ghost use Rattle.cs_body.specs.View.{aim};
ghost use Rattle.cs_txn.specs.Mutated.{deleted, without_all};
ghost use Rattle.cs_txn.specs.View.{IsTold};
ghost use Rattle.cs_txn.specs.Visits.{is_simple_aim, aim_cost};
ghost use Rattle.cs_txn.specs.Within.{IsShortAim};
ghost use Rattle.cs_working.specs.Working.{base, working as docs_of};

use crate::find::found;
use crate::why::Why;
use cs_body::Target;
use cs_value::{Fields, NoMemory, Steps, Txt};
use cs_working::Working;
use std::alloc::Global;
use std::collections::BTreeSet;
use std::sync::ledger::Ledger;

// Takes out the documents of the ids.
fn remove_all(working: &mut Working<'_>, ids: &BTreeSet<Txt>) -> Result<(), NoMemory>
    ensures store { base working.new ≡ base working.old }
    ensures removed { OnOk result (docs_of working.new
        ≡ without_all ids.now.keys (docs_of working.old)) }
{
    for id in ids.iter() {
        working.remove(id)?;
    }
    Ok(())
}

// Takes out the documents that a query finds.
fn delete_found<L: Ledger>(
    alloc: Global,
    working: &mut Working<'_>,
    text: &Txt,
    params: &Fields,
    steps: &mut Steps<L>,
) -> Result<(), Why>
    requires short { length text.now < 2 ^ 32 }
    ensures store { base working.new ≡ base working.old }
    ensures done { OnOk result (deleted (docs_of working.old)
        (asked text.now (fields params.now)) ≡ Ok (docs_of working.new)) }
    ensures refused { IfErr result (IsTold (λ c. deleted (docs_of working.old)
        (asked text.now (fields params.now)) ≡ Err c)) }
    ensures visits { is_simple_aim (asked text.now (fields params.now)) ≡ true → steps.new
        ≤ steps.old + aim_cost (docs_of working.old) (asked text.now (fields params.now)) }
{
    let ids = found(alloc, &*working, text, params, steps)?;
    remove_all(working, &ids)?;
    Ok(())
}

/// Takes out the documents that the target is meant for, or why that is refused. Nothing happens
/// where no document has the id.
pub(crate) fn delete<L: Ledger>(
    alloc: Global,
    working: &mut Working<'_>,
    target: &Target,
    steps: &mut Steps<L>,
) -> Result<(), Why>
    requires short { IsShortAim (aim target.now) }
    ensures store { base working.new ≡ base working.old }
    ensures done { OnOk result (deleted (docs_of working.old) (aim target.now)
        ≡ Ok (docs_of working.new)) }
    ensures refused { IfErr result (IsTold (λ c. deleted (docs_of working.old)
        (aim target.now) ≡ Err c)) }
    ensures visits { is_simple_aim (aim target.now) ≡ true → steps.new
        ≤ steps.old + aim_cost (docs_of working.old) (aim target.now) }
{
    match target {
        Target::Id(id) => {
            working.remove(id)?;
            Ok(())
        }
        Target::Query { text, params } => delete_found(alloc, working, text, params, steps),
    }
}
