//! Functions, where the values of their arguments are known.
ghost use Rattle.std.specs.Prelude.{◌≡◌, ◌∷◌, [], IfOk, IfSome, Some, None, length, map, pos};
ghost use Rattle.cs_value.specs.Words.{list_of};
ghost use Rattle.cs_value.specs.Tree.{integer};
ghost use Rattle.cs_value.specs.View.{tree};
ghost use Rattle.cs_func.specs.Functions.{has_two, value as value_of};
ghost use Rattle.cs_meaning.specs.Operators.{applied};
ghost use Rattle.cs_parts.specs.Parts.{got};

use cs_func::{Function, call};
use cs_parts::{Got, settle};
use cs_value::{NoMemory, Val};
use std::alloc::Global;

/// The value of a function of its arguments' values. Null where there is no function, or where it
/// has another number of arguments. It fails where memory is refused.
#[tactic(auto, using(cs_parts::proofs::Trees::tree_of_null))]
pub fn applied(
    alloc: Global,
    function: Option<Function>,
    values: Vec<Got<'_>>,
) -> Result<Val, NoMemory>
    ensures { IfOk result (λ v. tree v ≡ applied function (map got values.entry.items)) }
{
    let Some(function) = function else {
        return Ok(Val::Null);
    };
    let mut left = values.into_iter();
    let Some(first) = left.next() else {
        return Ok(Val::Null);
    };
    let Some(second) = left.next() else {
        return applied_to_one(alloc, function, first);
    };
    match left.next() {
        None => applied_to_two(alloc, function, first, second),
        Some(_) => Ok(Val::Null),
    }
}

// Whether the function has two arguments.
fn has_two(function: Function) -> bool
    ensures { result ≡ has_two function }
{
    matches!(
        function,
        Function::Join | Function::Split | Function::StartsWith
    )
}

// The value of a function of one argument.
#[tactic(auto, using(cs_parts::proofs::Trees::tree_of_null, crate::proofs::Arities::one_of_two))]
fn applied_to_one(alloc: Global, function: Function, only: Got<'_>) -> Result<Val, NoMemory>
    ensures { IfOk result (λ v. tree v ≡ value_of function (got only.entry) None) }
{
    if has_two(function) {
        return Ok(Val::Null);
    }
    if let Got::Parts(parts) = &only {
        if let Some(val) = of_length(function, parts) {
            return Ok(val);
        }
    }
    let only = settle(alloc, only)?;
    call(alloc, function, only.val(), None)
}

// The value that the length of a list alone gives, so that no element is copied.
#[tactic(auto, using(crate::proofs::Arities::lengths))]
fn of_length(function: Function, parts: &Vec<&Val>) -> Option<Val>
    ensures { IfSome result (λ v. tree v
        ≡ value_of function (list_of (map (λ r. tree r.now) parts.now.items)) None) }
{
    match function {
        Function::Count => Some(size_of(parts)),
        Function::Length => Some(size_of(parts)),
        Function::Defined => Some(Val::Bool(true)),
        _ => None,
    }
}

// The length as a number.
fn size_of(parts: &Vec<&Val>) -> Val
    ensures { tree result ≡ integer (pos (length parts.now.items)) }
{
    Val::Num(parts.len() as i64)
}

// The value of a function of two arguments.
#[tactic(auto, using(cs_parts::proofs::Trees::tree_of_null))]
fn applied_to_two(
    alloc: Global,
    function: Function,
    first: Got<'_>,
    second: Got<'_>,
) -> Result<Val, NoMemory>
    ensures { IfOk result (λ v. tree v
        ≡ applied (Some function) (got first.entry ∷ got second.entry ∷ [])) }
{
    if !has_two(function) {
        return Ok(Val::Null);
    }
    let first = settle(alloc, first)?;
    let second = settle(alloc, second)?;
    call(alloc, function, first.val(), Some(second.val()))
}
