//! The numbers of `+`, `-`, `*`, `%` and the prefixes, and the joins of `+`.
ghost use Rattle.std.specs.Prelude.{◌≡◌, ◌++◌, ℤ, FitsSigned, SomeIff, IsTrue, IfOk, IfErr, OnOk};
ghost use Rattle.std.specs.Int.{w64};
ghost use Rattle.cs_value.specs.Tree.{Pairs, text, list, trees, object};
ghost use Rattle.cs_value.specs.View.{tree, fields, list_tree};
ghost use Rattle.cs_ops.specs.Arithmetic.{number, remainder, merged, sum, joins};

use cs_value::{Fields, NoMemory, Txt, Val};
use std::alloc::Global;

// The number that a checked operation gave, null where it gave none.
pub(crate) fn number(checked: Option<i64>) -> Val
    ensures { (z : ℤ) → SomeIff checked (FitsSigned w64 z) z → tree result ≡ number z }
{
    match checked {
        Some(n) => Val::Num(n),
        None => Val::Null,
    }
}

pub(crate) fn remainder(m: i64, n: i64) -> Val
    ensures { tree result ≡ remainder m n }
{
    if n == 0 {
        Val::Null
    } else {
        Val::Num(m.wrapping_rem(n))
    }
}

// The value of `a + b`.
pub(crate) fn sum(alloc: Global, a: &Val, b: &Val) -> Result<Val, NoMemory>
    ensures value { IfOk result (λ v. tree v ≡ sum (tree a.now) (tree b.now)) }
    ensures memory { IfErr result (λ _. IsTrue (joins (tree a.now) (tree b.now))) }
{
    match (a, b) {
        (Val::Num(m), Val::Num(n)) => Ok(number(m.checked_add(*n))),
        (Val::Text(s), Val::Text(t)) => Ok(Val::Text(joined_texts(alloc, s, t)?)),
        (Val::List(items), Val::List(more)) => Ok(Val::List(joined_lists(alloc, items, more)?)),
        (Val::Obj(_), Val::Obj(right)) => put_all(alloc, a.copy(alloc)?, right),
        _ => Ok(Val::Null),
    }
}

// The value of `a + b`, for which the text, list or object on the left grows.
pub(crate) fn sum_onto(alloc: Global, a: Val, b: &Val) -> Result<Val, NoMemory>
    ensures value { IfOk result (λ v. tree v ≡ sum (tree a) (tree b.now)) }
    ensures memory { IfErr result (λ _. IsTrue (joins (tree a) (tree b.now))) }
{
    match b {
        Val::Text(t) => text_onto(alloc, a, t),
        Val::List(more) => list_onto(alloc, a, more),
        Val::Obj(right) => object_onto(alloc, a, right),
        _ => sum(alloc, &a, b),
    }
}

fn text_onto(alloc: Global, a: Val, right: &Txt) -> Result<Val, NoMemory>
    ensures value { IfOk result (λ v. tree v ≡ sum (tree a) (text right.now)) }
    ensures memory { IfErr result (λ _. IsTrue (joins (tree a) (text right.now))) }
{
    match a {
        Val::Text(left) => Ok(Val::Text(longer_text(alloc, left, right)?)),
        _ => Ok(Val::Null),
    }
}

fn list_onto(alloc: Global, a: Val, more: &Vec<Val>) -> Result<Val, NoMemory>
    ensures value { IfOk result (λ v. tree v
        ≡ sum (tree a) (list (trees (list_tree more.now.items)))) }
    ensures memory { IfErr result
        (λ _. IsTrue (joins (tree a) (list (trees (list_tree more.now.items))))) }
{
    match a {
        Val::List(items) => Ok(Val::List(longer_list(alloc, items, more)?)),
        _ => Ok(Val::Null),
    }
}

fn object_onto(alloc: Global, a: Val, right: &Fields) -> Result<Val, NoMemory>
    ensures value { IfOk result (λ v. tree v ≡ sum (tree a) (object (fields right.now))) }
    ensures memory { IfErr result (λ _. IsTrue (joins (tree a) (object (fields right.now)))) }
{
    match a {
        Val::Obj(_) => put_all(alloc, a, right),
        _ => Ok(Val::Null),
    }
}

fn longer_text(alloc: Global, left: Txt, right: &Txt) -> Result<Txt, NoMemory>
    ensures { IfOk result (λ t. t ≡ left ++ right.now) }
{
    let mut text = left.into_string(alloc)?;
    text.push_str(right.as_str())?;
    Ok(Txt::from_string(text))
}

fn longer_list(alloc: Global, left: Vec<Val>, right: &Vec<Val>) -> Result<Vec<Val>, NoMemory>
    ensures { IfOk result (λ v. list_tree v.items
        ≡ list_tree left.items ++ list_tree right.now.items) }
{
    let mut items = left;
    push_copies(alloc, right, &mut items)?;
    Ok(items)
}

fn joined_texts(alloc: Global, left: &Txt, right: &Txt) -> Result<Txt, NoMemory>
    ensures { IfOk result (λ t. t ≡ left.now ++ right.now) }
{
    let (left, right) = (left.as_str(), right.as_str());
    let mut both = String::with_capacity(alloc, left.len() + right.len())?;
    both.push_str(left)?;
    both.push_str(right)?;
    Ok(Txt::from_string(both))
}

fn joined_lists(alloc: Global, left: &Vec<Val>, right: &Vec<Val>) -> Result<Vec<Val>, NoMemory>
    ensures { IfOk result
        (λ v. list_tree v.items ≡ list_tree left.now.items ++ list_tree right.now.items) }
{
    let mut both = Vec::with_capacity(alloc, left.len() + right.len())?;
    push_copies(alloc, left, &mut both)?;
    push_copies(alloc, right, &mut both)?;
    Ok(both)
}

fn push_copies(alloc: Global, items: &Vec<Val>, to: &mut Vec<Val>) -> Result<(), NoMemory>
    ensures { OnOk result
        (list_tree to.new.items ≡ list_tree to.old.items ++ list_tree items.now.items) }
{
    for item in items {
        to.push(item.copy(alloc)?)?;
    }
    Ok(())
}

// The object with each pair put into it.
fn put_all(alloc: Global, left: Val, right: &Fields) -> Result<Val, NoMemory>
    ensures { IfOk result
        (λ v. (ps : Pairs) → tree left ≡ object ps
        → tree v ≡ object (merged ps (fields right.now))) }
{
    let Val::Obj(mut object) = left else {
        return Ok(Val::Null);
    };
    for (key, member) in right.pairs.iter() {
        let name = Txt::copy_of(alloc, key)?;
        object.set(name, member.copy(alloc)?)?;
    }
    Ok(Val::Obj(object))
}
