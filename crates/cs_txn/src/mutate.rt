//! What one mutation does to the dataset that a transaction works on.
ghost use Rattle.std.specs.Prelude.{◌≡◌, ◌≤◌, ◌+◌, true, Ok, Err, OnOk, IfOk, IfErr};
ghost use Rattle.cs_value.specs.Tree.{Tree};
ghost use Rattle.cs_value.specs.View.{tree};
ghost use Rattle.cs_view.specs.Document.{id_of, is_body, is_shallow};
ghost use Rattle.cs_body.specs.View.{action};
ghost use Rattle.cs_txn.specs.Install.{with_made_id};
ghost use Rattle.cs_txn.specs.Mutated.{Attempt, installed, created, replaced, kept_or_created, done};
ghost use Rattle.cs_txn.specs.View.{IsTold};
ghost use Rattle.cs_txn.specs.Visits.{is_simple_action, action_cost};
ghost use Rattle.cs_txn.specs.Within.{IsShort};
ghost use Rattle.cs_working.specs.Working.{base, working as docs_of};

use crate::change::change;
use crate::delete::delete;
use crate::named::id_in;
use crate::stamp::{entered, with_made_id};
use crate::why::Why;
use cs_body::Mutation;
use cs_value::{NoMemory, Steps, Txt, Val};
use cs_view::{DEEPEST_DOCUMENT, is_body};
use cs_working::Working;
use std::alloc::Global;
use std::sync::ledger::Ledger;

// The id of the document that the value becomes, where it can be installed.
fn checked(body: &Val) -> Result<&Txt, Why>
    ensures id { IfOk result (λ id. id.now ≡ id_of (tree body.now)) }
    ensures body { OnOk result (is_body (tree body.now) ≡ true) }
    ensures shallow { OnOk result (is_shallow (tree body.now) ≡ true) }
    ensures taken { OnOk result ((next : Tree → Attempt)
        → installed next (tree body.now) ≡ next (tree body.now)) }
    ensures refused { IfErr result (λ w. (next : Tree → Attempt)
        → IsTold (λ c. installed next (tree body.now) ≡ Err c) w) }
{
    if !is_body(body) {
        return Err(Why::BadDocument);
    }
    if !body.within(DEEPEST_DOCUMENT) {
        return Err(Why::DeepDocument);
    }
    let Some(id) = id_in(body) else {
        unreachable!()
    };
    Ok(id)
}

// Puts the document that the value becomes in the place of its id.
fn install(
    alloc: Global,
    working: &mut Working<'_>,
    body: Val,
    tx: &Txt,
    moment: &Txt,
) -> Result<(), NoMemory>
    requires body { is_body (tree body) ≡ true }
    requires shallow { is_shallow (tree body) ≡ true }
    ensures store { base working.new ≡ base working.old }
    ensures done { OnOk result (replaced tx.now moment.now (docs_of working.old) (tree body)
        ≡ Ok (docs_of working.new)) }
{
    let document = entered(alloc, body, tx.as_str(), moment.as_str())?;
    working.put(document)
}

// Installs a document whose id has none yet.
fn install_new(
    alloc: Global,
    working: &mut Working<'_>,
    body: Val,
    tx: &Txt,
    moment: &Txt,
) -> Result<(), Why>
    ensures store { base working.new ≡ base working.old }
    ensures done { OnOk result (installed (created tx.now moment.now (docs_of working.old))
        (tree body) ≡ Ok (docs_of working.new)) }
    ensures refused { IfErr result (IsTold (λ c. installed (created tx.now moment.now
        (docs_of working.old)) (tree body) ≡ Err c)) }
{
    let id = match checked(&body) {
        Ok(id) => id,
        Err(why) => return Err(why),
    };
    if working.stands(id) {
        let id = id.copy(alloc)?;
        return Err(Why::Exists { id });
    }
    install(alloc, working, body, tx, moment)?;
    Ok(())
}

// `create`.
fn create(
    alloc: Global,
    working: &mut Working<'_>,
    body: Val,
    tx: &Txt,
    moment: &Txt,
    index: u32,
) -> Result<(), Why>
    ensures store { base working.new ≡ base working.old }
    ensures done { OnOk result (installed (created tx.now moment.now (docs_of working.old))
        (with_made_id tx.now index (tree body)) ≡ Ok (docs_of working.new)) }
    ensures refused { IfErr result (IsTold (λ c. installed (created tx.now moment.now
        (docs_of working.old)) (with_made_id tx.now index (tree body)) ≡ Err c)) }
{
    let body = with_made_id(alloc, body, tx.as_str(), index)?;
    install_new(alloc, working, body, tx, moment)
}

// `createOrReplace`.
fn replace(
    alloc: Global,
    working: &mut Working<'_>,
    body: Val,
    tx: &Txt,
    moment: &Txt,
) -> Result<(), Why>
    ensures store { base working.new ≡ base working.old }
    ensures done { OnOk result (installed (replaced tx.now moment.now (docs_of working.old))
        (tree body) ≡ Ok (docs_of working.new)) }
    ensures refused { IfErr result (IsTold (λ c. installed (replaced tx.now moment.now
        (docs_of working.old)) (tree body) ≡ Err c)) }
{
    match checked(&body) {
        Ok(_id) => {}
        Err(why) => return Err(why),
    }
    install(alloc, working, body, tx, moment)?;
    Ok(())
}

// `createIfNotExists`.
fn create_if_none(
    alloc: Global,
    working: &mut Working<'_>,
    body: Val,
    tx: &Txt,
    moment: &Txt,
) -> Result<(), Why>
    ensures store { base working.new ≡ base working.old }
    ensures done { OnOk result (installed (kept_or_created tx.now moment.now
        (docs_of working.old)) (tree body) ≡ Ok (docs_of working.new)) }
    ensures refused { IfErr result (IsTold (λ c. installed (kept_or_created tx.now moment.now
        (docs_of working.old)) (tree body) ≡ Err c)) }
{
    let id = match checked(&body) {
        Ok(id) => id,
        Err(why) => return Err(why),
    };
    if working.stands(id) {
        return Ok(());
    }
    install(alloc, working, body, tx, moment)?;
    Ok(())
}

/// Does one mutation, the one of the index, to the dataset that is worked on; or why it is refused.
/// After a refusal the dataset is of no more use.
pub(crate) fn mutate<L: Ledger>(
    alloc: Global,
    working: &mut Working<'_>,
    mutation: Mutation,
    tx: &Txt,
    moment: &Txt,
    index: u32,
    steps: &mut Steps<L>,
) -> Result<(), Why>
    requires short { IsShort (action mutation) }
    ensures store { base working.new ≡ base working.old }
    ensures done { OnOk result (done tx.now moment.now index (docs_of working.old)
        (action mutation) ≡ Ok (docs_of working.new)) }
    ensures refused { IfErr result (IsTold (λ c. done tx.now moment.now index
        (docs_of working.old) (action mutation) ≡ Err c)) }
    ensures visits { is_simple_action (action mutation) ≡ true → steps.new
        ≤ steps.old + action_cost (docs_of working.old) (action mutation) }
{
    match mutation {
        Mutation::Create(body) => create(alloc, working, body, tx, moment, index),
        Mutation::Replace(body) => replace(alloc, working, body, tx, moment),
        Mutation::IfNone(body) => create_if_none(alloc, working, body, tx, moment),
        Mutation::Delete(target) => delete(alloc, working, &target, steps),
        Mutation::Change {
            target,
            patch,
            diff,
        } => change(alloc, working, &target, &patch, diff, tx, moment, steps),
    }
}
