//! The reply to an accepted transaction. Each commit has one, so it is written piece by piece, and
//! no tree is made of it.
ghost use Rattle.std.specs.Prelude.{◌≡◌, ◌++◌, OnOk, false, map};
ghost use Rattle.serde_json.specs.Written.{comma_if};
ghost use Rattle.cs_json.specs.Text.{items_joined, json_text};
ghost use Rattle.cs_reply.specs.Reply.{committed, reply_tree, outcome as outcome_tree};
ghost use Rattle.cs_reply.specs.View.{Appended, outcome};

use crate::line::write_number;
use crate::reply::Outcome;
use cs_json::write_text;
use cs_value::NoMemory;
use std::alloc::Global;

// Appends what became of one document.
fn write_outcome(alloc: Global, changed: &Outcome<'_>, out: &mut Vec<u8>) -> Result<(), NoMemory>
    ensures { OnOk result (out.new.items
        ≡ out.old.items ++ json_text (outcome_tree (outcome changed.now))) }
{
    out.extend_from_slice(b"{\"id\":")?;
    write_text(alloc, changed.id, out)?;
    out.extend_from_slice(b",\"operation\":\"")?;
    out.extend_from_slice(changed.operation.word().as_bytes())?;
    Ok(out.extend_from_slice(b"\"}")?)
}

// The same behind a comma, where another stands before it.
fn write_next(
    alloc: Global,
    later: bool,
    changed: &Outcome<'_>,
    out: &mut Vec<u8>,
) -> Result<(), NoMemory>
    ensures { OnOk result (out.new.items ≡ out.old.items
        ++ (comma_if later ++ json_text (outcome_tree (outcome changed.now)))) }
{
    if later {
        out.push(b',')?;
    }
    write_outcome(alloc, changed, out)
}

// Appends what became of each document, and the bracket behind the last.
fn write_outcomes(
    alloc: Global,
    outcomes: &[Outcome<'_>],
    out: &mut Vec<u8>,
) -> Result<(), NoMemory>
    ensures { OnOk result (out.new.items ≡ out.old.items ++ items_joined false
        (map (λ o. json_text (outcome_tree (outcome o))) outcomes.now)) }
{
    let mut later = false;
    for changed in outcomes {
        write_next(alloc, later, changed, out)?;
        later = true;
    }
    Ok(out.push(b']')?)
}

/// Appends the reply to a transaction that was accepted. After `NoMemory` a part of it may have
/// been appended.
pub(crate) fn write_committed(
    alloc: Global,
    tx: &str,
    outcomes: &[Outcome<'_>],
    line: u32,
    out: &mut Vec<u8>,
) -> Result<(), NoMemory>
    ensures { OnOk result (Appended out.old.items out.new.items
        (reply_tree line (committed tx.now (map outcome outcomes.now)))) }
{
    out.extend_from_slice(b"{\"line\":")?;
    write_number(line, out)?;
    out.extend_from_slice(b",\"results\":[")?;
    write_outcomes(alloc, outcomes, out)?;
    out.extend_from_slice(b",\"transactionId\":")?;
    write_text(alloc, tx, out)?;
    Ok(out.extend_from_slice(b"}\n")?)
}
