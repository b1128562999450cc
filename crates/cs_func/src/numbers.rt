//! The functions of a list of numbers and nulls.
ghost use Rattle.std.specs.Prelude.{◌≡◌, pos, ◌+ℤ◌, if◌then◌else◌, fold};
ghost use Rattle.std.specs.Int.{int_min, int_max};
ghost use Rattle.cs_value.specs.View.{tree, list_tree};
ghost use Rattle.cs_ops.specs.Arithmetic.{number};
ghost use Rattle.cs_func.specs.Numbers.{sum, least, greatest, numbers, of_numbers, picked, picked_of};

use cs_value::Val;

pub(crate) fn sum(x: &Val) -> Val
    ensures { tree result ≡ sum (tree x.now) }
{
    match x {
        Val::List(items) => sum_of(items),
        _ => Val::Null,
    }
}

// The sum of 2^63 numbers of 64 bits is one of 128 bits, so no partial sum leaves these.
fn sum_of(items: &Vec<Val>) -> Val
    ensures { tree result
        ≡ of_numbers (λ ns. number (fold ◌+ℤ◌ (pos 0) ns)) (numbers (list_tree items.now.items)) }
{
    let mut total: i128 = 0;
    for item in items {
        match item {
            Val::Null => {}
            Val::Num(n) => total += i128::from(*n),
            _ => return Val::Null,
        }
    }
    number(total)
}

// The number as a value, null out of 64 bits.
fn number(n: i128) -> Val
    ensures { tree result ≡ number n }
{
    match i64::try_from(n) {
        Ok(n) => Val::Num(n),
        Err(_) => Val::Null,
    }
}

pub(crate) fn least(x: &Val) -> Val
    ensures { tree result ≡ least (tree x.now) }
{
    match x {
        Val::List(items) => picked(items, false),
        _ => Val::Null,
    }
}

pub(crate) fn greatest(x: &Val) -> Val
    ensures { tree result ≡ greatest (tree x.now) }
{
    match x {
        Val::List(items) => picked(items, true),
        _ => Val::Null,
    }
}

// The greatest or the least of the numbers.
fn picked(items: &Vec<Val>, greatest: bool) -> Val
    ensures { tree result
        ≡ of_numbers (picked (if greatest then int_max else int_min))
        (numbers (list_tree items.now.items)) }
{
    let mut best = None;
    for item in items {
        match item {
            Val::Null => {}
            Val::Num(n) => best = Some(better(best, *n, greatest)),
            _ => return Val::Null,
        }
    }
    match best {
        Some(n) => Val::Num(n),
        None => Val::Null,
    }
}

fn better(best: Option<i64>, n: i64, greatest: bool) -> i64
    ensures { result ≡ picked_of (if greatest then int_max else int_min) best n }
{
    match best {
        None => n,
        Some(best) if greatest => best.max(n),
        Some(best) => best.min(n),
    }
}
