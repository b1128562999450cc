//! The documents that values name.
ghost use Rattle.std.specs.BTreeSet.{contains, IsOrdered};
ghost use Rattle.std.specs.Prelude.{◌≡◌, ℕ, List, true, false, cond, Ok, Err, Some, OnOk, IfOk, IfErr, IfNone, IfSome, codes, map, option_map};
ghost use Rattle.cs_value.specs.View.{tree, list_tree};
ghost use Rattle.cs_value.specs.Words.{text_at};
ghost use Rattle.cs_view.specs.Dataset.{id_cmp, same_id};
ghost use Rattle.cs_parts.specs.Parts.{got};
ghost use Rattle.cs_txn.specs.Mutated.{elements, ids_of, names_one};
ghost use Rattle.cs_txn.specs.View.{IsTold};
ghost use Rattle.cs_working.specs.Working.{working as docs_of};

use crate::why::Why;
use cs_parts::Got;
use cs_value::{NoMemory, Txt, Val};
use cs_working::Working;
use std::alloc::Global;
use std::collections::BTreeSet;

/// The text at `_id`. `None` exactly where the value is no object, or another value stands there.
pub(crate) fn id_in(val: &Val) -> Option<&Txt>
    ensures { option_map (λ s. s.now) result ≡ text_at (codes "_id") (tree val.now) }
{
    match val.field("_id") {
        Some(Val::Text(id)) => Some(id),
        _ => None,
    }
}

// The id of the document that the value names: `None` exactly where it names none.
fn named<'v>(working: &Working<'_>, val: &'v Val) -> Option<&'v Txt>
    ensures some { IfSome result (λ id. text_at (codes "_id") (tree val.now) ≡ Some id.now) }
    ensures stands { IfSome result (λ _. names_one (docs_of working.now) (tree val.now) ≡ true) }
    ensures none { IfNone result (names_one (docs_of working.now) (tree val.now) ≡ false) }
{
    let id = id_in(val)?;
    if working.stands(id) {
        return Some(id);
    }
    None
}

// A copy of the id among the others.
fn add(alloc: Global, ids: &mut BTreeSet<Txt>, id: &Txt) -> Result<(), NoMemory>
    ensures added { OnOk result ((q : List ℕ) → contains id_cmp ids.new q
        ≡ cond (same_id id.now q) true (contains id_cmp ids.old q)) }
    ensures ordered { OnOk result (IsOrdered id_cmp ids.new) }
{
    drop(ids.insert(id.copy(alloc)?)?);
    Ok(())
}

// The ids of the documents that the values name, if each names one.
fn named_by(alloc: Global, working: &Working<'_>, vals: &[&Val]) -> Result<BTreeSet<Txt>, Why>
    ensures ids { IfOk result (λ ids. ids_of (docs_of working.now)
        (map (λ v. tree v.now) vals.now) ≡ Ok ids.keys) }
    ensures refused { IfErr result (IsTold (λ c. ids_of (docs_of working.now)
        (map (λ v. tree v.now) vals.now) ≡ Err c)) }
{
    let mut ids = BTreeSet::new(alloc);
    for val in vals {
        let Some(id) = named(working, val) else {
            return Err(Why::NotDocuments);
        };
        add(alloc, &mut ids, id)?;
    }
    Ok(ids)
}

// Values as borrowed ones.
fn lend<'v>(alloc: Global, vals: &'v [Val]) -> Result<Vec<&'v Val>, NoMemory>
    ensures { IfOk result (λ lent. map (λ v. tree v.now) lent.items ≡ list_tree vals.now) }
{
    let mut lent = Vec::new(alloc);
    for val in vals {
        lent.push(val)?;
    }
    Ok(lent)
}

// The ids of the documents that the elements of a value name, if each names one.
#[tactic(auto, using(crate::proofs::Naming::elements_of_vals))]
fn named_in(alloc: Global, working: &Working<'_>, val: &Val) -> Result<BTreeSet<Txt>, Why>
    ensures ids { IfOk result (λ ids. ids_of (docs_of working.now) (elements (tree val.now))
        ≡ Ok ids.keys) }
    ensures refused { IfErr result (IsTold (λ c. ids_of (docs_of working.now)
        (elements (tree val.now)) ≡ Err c)) }
{
    match val {
        Val::Null => named_by(alloc, working, &[]),
        Val::List(items) => named_by(alloc, working, &lend(alloc, items)?),
        _ => named_by(alloc, working, &[val]),
    }
}

/// The ids of the documents that the elements of what was found name, if each names one. Null has
/// no elements, a list has its own, and another value is its only one. `NotDocuments` comes exactly
/// where one names none.
#[tactic(auto, using(crate::proofs::Naming::elements_of_list))]
pub(crate) fn named_in_found(
    alloc: Global,
    working: &Working<'_>,
    found: Got<'_>,
) -> Result<BTreeSet<Txt>, Why>
    ensures ids { IfOk result (λ ids. ids_of (docs_of working.now) (elements (got found.entry))
        ≡ Ok ids.keys) }
    ensures refused { IfErr result (IsTold (λ c. ids_of (docs_of working.now)
        (elements (got found.entry)) ≡ Err c)) }
{
    match found {
        Got::Part(val) => named_in(alloc, working, val),
        Got::Parts(vals) => named_by(alloc, working, &vals),
        Got::Whole(val) => named_in(alloc, working, &val),
    }
}
