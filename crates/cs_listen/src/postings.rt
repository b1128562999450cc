//! Postings, as of an inverted index: who waits for documents with a key, by the code of the key.
ghost use Rattle.std.specs.Prelude.{◌≡◌, ◌≤◌, ◌<◌, ◌&&◌, ◌||◌, ℕ, cond, false, length, nat_eq, slice_index_or, IfOk, OnErr, OnOk};
ghost use Rattle.std.specs.List.{list_any};
ghost use Rattle.std.specs.List.Sorted.{IsStrictlySortedBy};
ghost use Rattle.std.specs.Ordering.{nat_cmp};
ghost use Rattle.cs_view.specs.View.{edits};
ghost use Rattle.cs_codes.specs.Codes.{is_among};
ghost use Rattle.cs_interest.specs.Changed.{changes_codes};
ghost use Rattle.cs_listen.specs.Posted.{Adds, Ascend, is_posted, is_sought};

use cs_codes::Seed;
use cs_interest::codes_of_changes;
use cs_value::NoMemory;
use cs_view::Change;
use std::alloc::Global;

/// The listener of the number waits for documents that have a key of the code.
#[derive(Clone, Copy, Drop)]
pub(crate) struct Posting {
    pub(crate) code: u64,
    pub(crate) number: u64,
}

// How many of the postings stand under lower codes.
fn count_below(postings: &[Posting], code: u64) -> usize
    requires { Ascend postings.now }
    ensures bound { result ≤ length postings.now }
    ensures below { (k : ℕ) (d : Posting) → k < result
        → (slice_index_or postings.now k d).code < code }
    ensures others { (k : ℕ) (d : Posting) → result ≤ k → k < length postings.now
        → code ≤ (slice_index_or postings.now k d).code }
{
    postings.partition_point(|posting| posting.code < code)
}

// How many of the postings stand under the code or lower ones.
fn count_through(postings: &[Posting], code: u64) -> usize
    requires { Ascend postings.now }
    ensures bound { result ≤ length postings.now }
    ensures through { (k : ℕ) (d : Posting) → k < result
        → (slice_index_or postings.now k d).code ≤ code }
    ensures others { (k : ℕ) (d : Posting) → result ≤ k → k < length postings.now
        → code < (slice_index_or postings.now k d).code }
{
    postings.partition_point(|posting| posting.code <= code)
}

// Whether the first of the postings stands under the code. None stands under a lower one.
fn begins(postings: &[Posting], code: u64) -> bool
    requires ascend { Ascend postings.now }
    requires least { (k : ℕ) (d : Posting) → k < length postings.now
        → code ≤ (slice_index_or postings.now k d).code }
    ensures { result ≡ false → (n : ℕ) → is_posted code n postings.now ≡ false }
{
    match postings.first() {
        Some(first) => first.code == code,
        None => false,
    }
}

// The postings under the code. Mostly there is none, which the first search tells.
fn under(postings: &[Posting], code: u64) -> &[Posting]
    requires { Ascend postings.now }
    ensures { (n : ℕ) → list_any (λ p. nat_eq n p.number) result.now
        ≡ is_posted code n postings.now }
{
    let rest = &postings[count_below(postings, code)..];
    if begins(rest, code) {
        &rest[..count_through(rest, code)]
    } else {
        &[]
    }
}

// Puts one number last.
#[tactic(auto, using(crate::proofs::Posted::among_last))]
fn put_number(numbers: &mut Vec<u64>, number: u64) -> Result<(), NoMemory>
    ensures { OnOk result (Adds (λ n. nat_eq n number) numbers.old.items numbers.new.items) }
{
    numbers.push(number)?;
    Ok(())
}

// Puts the numbers of the postings.
fn put_numbers(postings: &[Posting], numbers: &mut Vec<u64>) -> Result<(), NoMemory>
    ensures { OnOk result (Adds (λ n. list_any (λ p. nat_eq n p.number) postings.now)
        numbers.old.items numbers.new.items) }
{
    for posting in postings {
        put_number(numbers, posting.number)?;
    }
    Ok(())
}

// Puts the numbers that are posted under the code.
fn put_under(postings: &[Posting], code: u64, numbers: &mut Vec<u64>) -> Result<(), NoMemory>
    requires { Ascend postings.now }
    ensures { OnOk result (Adds (λ n. is_posted code n postings.now)
        numbers.old.items numbers.new.items) }
{
    put_numbers(under(postings, code), numbers)
}

// Puts the numbers that are posted under one of the codes.
fn put_under_all(
    postings: &[Posting],
    codes: &Vec<u64>,
    numbers: &mut Vec<u64>,
) -> Result<(), NoMemory>
    requires { Ascend postings.now }
    ensures { OnOk result (Adds (λ n. list_any (λ c. is_posted c n postings.now) codes.now.items)
        numbers.old.items numbers.new.items) }
{
    for code in codes {
        put_under(postings, *code, numbers)?;
    }
    Ok(())
}

// Brings numbers in order, each of them once.
fn sort(numbers: &mut Vec<u64>)
    ensures among { (n : ℕ) → is_among n numbers.new.items ≡ is_among n numbers.old.items }
    ensures ascend { IsStrictlySortedBy nat_cmp numbers.new.items }
{
    numbers.sort_unstable();
    numbers.dedup();
}

/// The numbers that are posted under a code of the changes, or under that of every document,
/// ascending. `NoMemory` where the allocator has no room for them.
pub(crate) fn sought_numbers(
    alloc: Global,
    seed: &Seed,
    postings: &[Posting],
    changes: &[Change],
) -> Result<Vec<u64>, NoMemory>
    requires { Ascend postings.now }
    ensures exact { IfOk result (λ ns. (n : ℕ) → is_among n ns.items
        ≡ is_sought n postings.now (changes_codes seed.now (edits changes.now))) }
    ensures ascend { IfOk result (λ ns. IsStrictlySortedBy nat_cmp ns.items) }
{
    let codes = codes_of_changes(alloc, seed, changes)?;
    let mut numbers = Vec::new(alloc);
    put_under(postings, 0, &mut numbers)?;
    put_under_all(postings, &codes, &mut numbers)?;
    sort(&mut numbers);
    Ok(numbers)
}

/// One posting more. `NoMemory` where the allocator has no room for it; all is as before then.
pub(crate) fn post(postings: &mut Vec<Posting>, code: u64, number: u64) -> Result<(), NoMemory>
    requires { Ascend postings.old.items }
    ensures posted { OnOk result ((c n : ℕ) → is_posted c n postings.new.items
        ≡ (nat_eq c code && nat_eq n number || is_posted c n postings.old.items)) }
    ensures unchanged { OnErr result (postings.new.items ≡ postings.old.items) }
    ensures ascend { Ascend postings.new.items }
{
    let place = count_through(postings, code);
    postings.insert(place, Posting { code, number })?;
    Ok(())
}

/// Takes out what is posted of the number.
pub(crate) fn withdraw(postings: &mut Vec<Posting>, number: u64)
    requires { Ascend postings.old.items }
    ensures withdrawn { (c n : ℕ) → is_posted c n postings.new.items
        ≡ cond (nat_eq n number) false (is_posted c n postings.old.items) }
    ensures ascend { Ascend postings.new.items }
{
    postings.retain(|posting| posting.number != number);
}
