//! The numbers that changes concern.
ghost use Rattle.std.specs.Prelude.{◌≡◌, nat_eq, option_map, IfOk, OnOk};
ghost use Rattle.std.specs.List.{list_any};
ghost use Rattle.std.specs.List.Sorted.{IsStrictlySortedBy};
ghost use Rattle.std.specs.Ordering.{nat_cmp};
ghost use Rattle.cs_view.specs.View.{document_of, edit, edits};
ghost use Rattle.cs_interest.specs.Interest.{has_pair, has_some, concerned, Adds};
ghost use Rattle.cs_codes.specs.Codes.{side_codes};

use crate::pair::Pair;
use cs_codes::{Seed, codes_of, id_code};
use cs_value::NoMemory;
use cs_view::{Change, Doc};
use std::alloc::Global;
use std::collections::BTreeSet;

// The highest number.
const HIGHEST: u64 = 18_446_744_073_709_551_615;

#[tactic(auto, using(crate::proofs::Pairs::one_number, crate::proofs::Pairs::cond_or))]
fn put_number(asked: &mut BTreeSet<u64>, number: u64) -> Result<(), NoMemory>
    ensures { OnOk result (Adds (λ n. nat_eq n number) asked.old asked.new) }
{
    asked.insert(number)?;
    Ok(())
}

// Puts the numbers that stand under a code.
pub(crate) fn put_under(
    pairs: &BTreeSet<Pair>,
    code: u64,
    asked: &mut BTreeSet<u64>,
) -> Result<(), NoMemory>
    ensures { OnOk result (Adds (λ n. has_pair pairs.now code n) asked.old asked.new) }
{
    let low = Pair { code, number: 0 };
    let high = Pair {
        code,
        number: HIGHEST,
    };
    for pair in pairs.range(low..=high) {
        put_number(asked, pair.number)?;
    }
    Ok(())
}

// Puts the numbers that stand under one of the codes.
fn put_under_all(
    pairs: &BTreeSet<Pair>,
    codes: &Vec<u64>,
    asked: &mut BTreeSet<u64>,
) -> Result<(), NoMemory>
    ensures { OnOk result (Adds (has_some pairs.now codes.now.items) asked.old asked.new) }
{
    for code in codes {
        put_under(pairs, *code, asked)?;
    }
    Ok(())
}

// Puts the numbers that stand under a code of what stands on a side of a change.
fn put_side(
    alloc: Global,
    seed: &Seed,
    pairs: &BTreeSet<Pair>,
    side: &Option<Doc>,
    asked: &mut BTreeSet<u64>,
) -> Result<(), NoMemory>
    ensures { OnOk result (Adds
        (has_some pairs.now (side_codes seed.now (option_map document_of side.now)))
        asked.old asked.new) }
{
    let Some(doc) = side else {
        return Ok(());
    };
    let codes = codes_of(alloc, seed, doc)?;
    put_under_all(pairs, &codes, asked)?;
    Ok(())
}

// Puts the numbers that a change concerns.
fn put_change(
    alloc: Global,
    seed: &Seed,
    pairs: &BTreeSet<Pair>,
    change: &Change,
    asked: &mut BTreeSet<u64>,
) -> Result<(), NoMemory>
    ensures { OnOk result (Adds (λ n. concerned seed.now pairs.now n (edit change.now))
        asked.old asked.new) }
{
    put_under(pairs, id_code(seed, &change.id), asked)?;
    put_side(alloc, seed, pairs, &change.before, asked)?;
    put_side(alloc, seed, pairs, &change.after, asked)?;
    Ok(())
}

// Puts the numbers that changes concern.
pub(crate) fn put_changes(
    alloc: Global,
    seed: &Seed,
    pairs: &BTreeSet<Pair>,
    changes: &[Change],
    asked: &mut BTreeSet<u64>,
) -> Result<(), NoMemory>
    ensures { OnOk result (Adds
        (λ n. list_any (concerned seed.now pairs.now n) (edits changes.now))
        asked.old asked.new) }
{
    for change in changes {
        put_change(alloc, seed, pairs, change, asked)?;
    }
    Ok(())
}

// The numbers in a set, ascending.
pub(crate) fn numbers_of(alloc: Global, asked: &BTreeSet<u64>) -> Result<Vec<u64>, NoMemory>
    ensures numbers { IfOk result (λ ns. ns.items ≡ asked.now.keys) }
    ensures ordered { IsStrictlySortedBy nat_cmp asked.now.keys }
{
    // A set's length tells that it is ordered.
    let _count = asked.len();
    let mut out = Vec::new(alloc);
    for number in asked.iter() {
        out.push(*number)?;
    }
    Ok(out)
}
