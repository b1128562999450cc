//! The values of operators.
ghost use Rattle.std.specs.Prelude.{◌≡◌, IsTrue, IfOk, IfErr};
ghost use Rattle.std.specs.List.{list_any};
ghost use Rattle.cs_value.specs.View.{tree, list_tree};
ghost use Rattle.cs_ops.specs.Equal.{equal};
ghost use Rattle.cs_ops.specs.Arithmetic.{joins};
ghost use Rattle.cs_ops.specs.Operators.{binary, prefix, within, between};
ghost use Rattle.cs_ops.specs.Truth.{truth, said};

use crate::arithmetic::{number, remainder, sum, sum_onto};
use crate::compare::{equal, partial};
use crate::op::{Op, Pre};
use crate::truth::{both, either};
use cs_value::{NoMemory, Val};
use std::alloc::Global;

// What a value says as a condition: nothing, where it is no boolean.
fn truth(val: &Val) -> Option<bool>
    ensures { result ≡ truth (tree val.now) }
{
    match val {
        Val::Bool(b) => Some(*b),
        _ => None,
    }
}

fn said(truth: Option<bool>) -> Val
    ensures { tree result ≡ said truth }
{
    match truth {
        Some(b) => Val::Bool(b),
        None => Val::Null,
    }
}

// An operation on two numbers, null of anything else.
macro_rules! of_numbers {
    ($a:expr, $b:expr, $m:ident, $n:ident, $value:expr) => {
        match ($a, $b) {
            (Val::Num($m), Val::Num($n)) => $value,
            _ => Val::Null,
        }
    };
}

// A test of a comparison, null where there is none.
macro_rules! compared {
    ($a:expr, $b:expr, $test:ident) => {
        match partial($a, $b) {
            Some(order) => Val::Bool(order.$test()),
            None => Val::Null,
        }
    };
}

/// The value of `a op b`. `NoMemory` comes from `+` alone, where two texts, two lists or two
/// objects are joined; nothing else takes memory.
pub fn binary(alloc: Global, op: Op, a: &Val, b: &Val) -> Result<Val, NoMemory>
    ensures value { IfOk result (λ v. tree v ≡ binary op (tree a.now) (tree b.now)) }
    ensures memory { IfErr result (λ _. (op ≡ Op.Add) × IsTrue (joins (tree a.now) (tree b.now))) }
{
    match op {
        Op::Add => sum(alloc, a, b),
        Op::Sub => Ok(of_numbers!(a, b, m, n, number(m.checked_sub(*n)))),
        Op::Mul => Ok(of_numbers!(a, b, m, n, number(m.checked_mul(*n)))),
        Op::Rem => Ok(of_numbers!(a, b, m, n, remainder(*m, *n))),
        Op::Eq => Ok(Val::Bool(equal(a, b))),
        Op::Ne => Ok(Val::Bool(!equal(a, b))),
        Op::Lt => Ok(compared!(a, b, is_lt)),
        Op::Le => Ok(compared!(a, b, is_le)),
        Op::Gt => Ok(compared!(a, b, is_gt)),
        Op::Ge => Ok(compared!(a, b, is_ge)),
        Op::And => Ok(said(both(truth(a), truth(b)))),
        Op::Or => Ok(said(either(truth(a), truth(b)))),
    }
}

/// The value of `a op b`, where `a` is given up: for `+` the text, list or object of `a` grows, so
/// that a run of `+` costs what it makes. `NoMemory` as of [`binary`].
pub fn binary_onto(alloc: Global, op: Op, a: Val, b: &Val) -> Result<Val, NoMemory>
    ensures value { IfOk result (λ v. tree v ≡ binary op (tree a) (tree b.now)) }
    ensures memory { IfErr result (λ _. (op ≡ Op.Add) × IsTrue (joins (tree a) (tree b.now))) }
{
    match op {
        Op::Add => sum_onto(alloc, a, b),
        _ => binary(alloc, op, &a, b),
    }
}

/// The value of `op a`. It takes no memory.
pub fn prefix(op: Pre, a: &Val) -> Val
    ensures { tree result ≡ prefix op (tree a.now) }
{
    match (op, a) {
        (Pre::Minus, Val::Num(n)) => number(n.checked_neg()),
        (Pre::Plus, Val::Num(n)) => Val::Num(*n),
        (Pre::Not, Val::Bool(b)) => Val::Bool(!*b),
        _ => Val::Null,
    }
}

/// The value of `a in b`: whether some element of the list `b` is equal to `a`, null where `b` is
/// no list. It takes no memory.
pub fn within(a: &Val, b: &Val) -> Val
    ensures { tree result ≡ within (tree a.now) (tree b.now) }
{
    match b {
        Val::List(items) => Val::Bool(has_equal(items, a)),
        _ => Val::Null,
    }
}

fn has_equal(items: &Vec<Val>, a: &Val) -> bool
    ensures { result ≡ list_any (λ t. equal t (tree a.now)) (list_tree items.now.items) }
{
    for item in items {
        if equal(item, a) {
            return true;
        }
    }
    false
}

/// The value of `a in low..high` where `closed` is true, and of `a in low...high` where it is
/// false: whether `a` is at least `low`, and at most or below `high`; null where `a` has no
/// comparison with one of them. It takes no memory.
pub fn between(a: &Val, low: &Val, high: &Val, closed: bool) -> Val
    ensures { tree result ≡ between (tree a.now) (tree low.now) (tree high.now) closed }
{
    match (partial(a, low), partial(a, high)) {
        (Some(from), Some(to)) => {
            let ends = if closed { to.is_le() } else { to.is_lt() };
            Val::Bool(from.is_ge() && ends)
        }
        _ => Val::Null,
    }
}
