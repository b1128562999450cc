//! Equality and orders of values.
ghost use Rattle.std.specs.Prelude.{◌≡◌};
ghost use Rattle.cs_value.specs.View.{tree};
ghost use Rattle.cs_ops.specs.Equal.{equal};
ghost use Rattle.cs_ops.specs.Order.{partial, rank, total};

use cs_value::Val;
use std::cmp::Ordering;

/// Whether two values are equal: both null, or equal booleans, numbers or texts. No list and no
/// object is equal to anything.
pub fn equal(a: &Val, b: &Val) -> bool
    ensures { result ≡ equal (tree a.now) (tree b.now) }
{
    match (a, b) {
        (Val::Null, Val::Null) => true,
        (Val::Bool(x), Val::Bool(y)) => *x == *y,
        (Val::Num(m), Val::Num(n)) => *m == *n,
        (Val::Text(s), Val::Text(t)) => s.as_str() == t.as_str(),
        _ => false,
    }
}

/// The comparison of two numbers, of two texts by code points, or of two booleans, false first.
/// `None` exactly for every other pair.
pub fn partial(a: &Val, b: &Val) -> Option<Ordering>
    ensures { result ≡ partial (tree a.now) (tree b.now) }
{
    match (a, b) {
        (Val::Num(m), Val::Num(n)) => Some(m.cmp(n)),
        (Val::Text(s), Val::Text(t)) => Some(s.as_str().cmp(t.as_str())),
        (Val::Bool(x), Val::Bool(y)) => Some(x.cmp(y)),
        _ => None,
    }
}

// Numbers, then texts, then booleans, then everything else.
fn rank(val: &Val) -> u8
    ensures { result ≡ rank (tree val.now) }
{
    match val {
        Val::Num(_) => 0,
        Val::Text(_) => 1,
        Val::Bool(_) => 2,
        _ => 3,
    }
}

/// The order by which lists are sorted: numbers, then texts, then booleans, each as [`partial`]
/// compares them, then everything else as equal.
pub fn total(a: &Val, b: &Val) -> Ordering
    ensures { result ≡ total (tree a.now) (tree b.now) }
{
    match rank(a).cmp(&rank(b)) {
        Ordering::Equal => partial(a, b).unwrap_or(Ordering::Equal),
        apart => apart,
    }
}
