//! What a transaction comes to over a store's dataset.
ghost use Rattle.std.specs.Prelude.{◌≡◌, ◌≤◌, ◌<◌, ◌^◌, ◌+◌, List, true, Ok, OnOk, IfOk, IfErr, length, map};
ghost use Rattle.cs_value.specs.Tree.{Tree};
ghost use Rattle.cs_view.specs.Changes.{after_changes, AreChangesBetween};
ghost use Rattle.cs_docs.specs.Faults.{IsFault};
ghost use Rattle.cs_docs.specs.Store.{prepared};
ghost use Rattle.cs_docs.specs.Verdict.{Verdict, AreTaken};
ghost use Rattle.cs_index.specs.View.{indexed};
ghost use Rattle.cs_body.specs.View.{action};
ghost use Rattle.cs_txn.specs.Commit.{commit, folded, held};
ghost use Rattle.cs_txn.specs.View.{IsRefusal, transaction};
ghost use Rattle.cs_txn.specs.Visits.{are_simple, costs};
ghost use Rattle.cs_txn.specs.Within.{AreShort};
ghost use Rattle.cs_working.specs.Working.{base, working as working_docs};

use crate::mutate::mutate;
use crate::why::{Refusal, Why};
use cs_body::Mutation;
use cs_docs::{PrepareFault, Prepared, Referrers};
use cs_index::Indexed;
use cs_value::{Steps, Txt};
use cs_working::Working;
use std::alloc::Global;
use std::sync::ledger::Ledger;

// The mutations one after another, up to the first that is refused.
fn fold<L: Ledger>(
    alloc: Global,
    working: &mut Working<'_>,
    tx: &Txt,
    mutations: Vec<Mutation>,
    moment: &Txt,
    steps: &mut Steps<L>,
) -> Result<(), Refusal>
    requires few { length mutations.items < 2 ^ 31 }
    requires short { AreShort (map action mutations.items) }
    ensures store { base working.new ≡ base working.old }
    ensures folded { OnOk result (folded tx.now moment.now 0 (map action mutations.items)
        (working_docs working.old) ≡ Ok (working_docs working.new)) }
    ensures refused { IfErr result (λ r. IsRefusal r (folded tx.now moment.now 0
        (map action mutations.items) (working_docs working.old))) }
    ensures visits { are_simple (map action mutations.items) ≡ true → steps.new ≤ steps.old
        + costs tx.now moment.now 0 (map action mutations.items) (working_docs working.old) }
{
    let mut index: u32 = 0;
    for mutation in mutations {
        match mutate(alloc, working, mutation, tx, moment, index, steps) {
            Ok(()) => {}
            Err(why) => {
                return Err(Refusal {
                    mutation: Some(index),
                    why,
                });
            }
        }
        index += 1;
    }
    Ok(())
}

// The refusal that a fault of the changes is.
fn refusal_of(fault: PrepareFault) -> Refusal
    ensures { (d : List Tree) (v : Verdict) → IsFault fault v → IsRefusal result (held d v) }
{
    let why = match fault {
        PrepareFault::Full => Why::FullDocuments,
        PrepareFault::Dangling { from, to } => Why::Dangling { from, to },
        PrepareFault::NoMemory => Why::NoMemory,
    };
    Refusal {
        mutation: None,
        why,
    }
}

/// What a transaction of this id comes to over a store's dataset at a moment: the changes from it
/// to the dataset after the transaction, or the refusal. The mutations are done one after another
/// to a dataset that is worked on, over which the queries inside them are evaluated too: by the
/// index of the store, and by what was put so far. The store stays as it is until the changes are
/// installed. Strong references and the number of documents are asked for after the last mutation
/// alone.
///
/// `referrers` knows who refers to an id in the store's dataset. There are fewer than 2^31
/// mutations, and each text of a query and of a patch's path has fewer than 2^32 bytes. A query
/// that is simple visits no more documents than have its key.
///
/// The first mutation that is refused ends the transaction, and the refusal has its index.
/// `FullDocuments` and `Dangling` are of the whole transaction and have none. `NoMemory` comes
/// where the allocator has no room, and says nothing of the transaction.
pub fn prepare<R: Referrers, L: Ledger>(
    alloc: Global,
    store: Indexed<'_>,
    referrers: &R,
    tx: &Txt,
    mutations: Vec<Mutation>,
    moment: &Txt,
    steps: &mut Steps<L>,
) -> Result<Prepared, Refusal>
    requires same { R.dataset referrers.now ≡ indexed store }
    requires few { length mutations.items < 2 ^ 31 }
    requires short { AreShort (map action mutations.items) }
    ensures accepted { IfOk result (λ p. commit (transaction tx.now mutations.items) moment.now
        (indexed store.entry) ≡ Ok (after_changes (indexed store.entry) (prepared p))) }
    ensures changes { IfOk result (λ p. AreChangesBetween (indexed store.entry)
        (after_changes (indexed store.entry) (prepared p)) (prepared p)) }
    ensures taken { IfOk result (λ p. AreTaken (indexed store.entry) (prepared p)) }
    ensures refused { IfErr result (λ r. IsRefusal r
        (commit (transaction tx.now mutations.items) moment.now (indexed store.entry))) }
    ensures visits { are_simple (map action mutations.items) ≡ true → steps.new ≤ steps.old
        + costs tx.now moment.now 0 (map action mutations.items) (indexed store.entry) }
{
    let mut working = Working::of(alloc, store);
    fold(alloc, &mut working, tx, mutations, moment, steps)?;
    let changes = match working.changes() {
        Ok(changes) => changes,
        Err(_) => {
            return Err(Refusal {
                mutation: None,
                why: Why::NoMemory,
            });
        }
    };
    match Prepared::make(alloc, store.docs(), referrers, changes) {
        Ok(prepared) => Ok(prepared),
        Err(fault) => Err(refusal_of(fault)),
    }
}
