//! Pairs put among others, and taken out.
ghost use Rattle.std.specs.Prelude.{◌≡◌, ℕ, true, false, cond, OnOk, OnErr};
ghost use Rattle.cs_interest.specs.Interest.{has_pair, is_one, is_of};

use crate::pair::Pair;
use cs_value::NoMemory;
use std::collections::BTreeSet;

#[tactic(auto, using(crate::proofs::Pairs::one_pair))]
fn put(pairs: &mut BTreeSet<Pair>, number: u64, code: u64) -> Result<(), NoMemory>
    ensures put { OnOk result ((c n : ℕ)
        → has_pair pairs.new c n ≡ cond (is_one number code c n) true (has_pair pairs.old c n)) }
    ensures kept { OnErr result ((c n : ℕ) → has_pair pairs.new c n ≡ has_pair pairs.old c n) }
{
    match pairs.insert(Pair { code, number }) {
        Ok(_) => Ok(()),
        Err(_) => Err(NoMemory),
    }
}

#[tactic(auto, using(crate::proofs::Pairs::one_pair))]
fn take(pairs: &mut BTreeSet<Pair>, number: u64, code: u64)
    ensures { (c n : ℕ)
        → has_pair pairs.new c n ≡ cond (is_one number code c n) false (has_pair pairs.old c n) }
{
    pairs.remove(&Pair { code, number });
}

// Puts the number under each of the codes.
pub(crate) fn put_all(
    pairs: &mut BTreeSet<Pair>,
    number: u64,
    codes: &[u64],
) -> Result<(), NoMemory>
    ensures put { OnOk result ((c n : ℕ)
        → has_pair pairs.new c n
        ≡ cond (is_of number codes.now c n) true (has_pair pairs.old c n)) }
    ensures others { OnErr result ((c n : ℕ)
        → cond (is_of number codes.now c n) false (has_pair pairs.new c n)
        ≡ cond (is_of number codes.now c n) false (has_pair pairs.old c n)) }
{
    for code in codes {
        put(pairs, number, *code)?;
    }
    Ok(())
}

// Takes the number out from under each of the codes. It takes no memory.
pub(crate) fn take_all(pairs: &mut BTreeSet<Pair>, number: u64, codes: &[u64])
    ensures { (c n : ℕ)
        → has_pair pairs.new c n
        ≡ cond (is_of number codes.now c n) false (has_pair pairs.old c n) }
{
    for code in codes {
        take(pairs, number, *code);
    }
}
