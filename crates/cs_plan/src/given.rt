//! All keys of a filter: those that its conjuncts give.
ghost use Rattle.std.specs.Prelude.{◌≡◌, ◌++◌, IfOk, OnOk, option_map, option_to_list};
ghost use Rattle.cs_plan.specs.Filters.{all_and, conjuncts, operand_conjuncts, keys_given, filter_keys};
ghost use Rattle.cs_plan.specs.Lent.{key_lent};
ghost use Rattle.cs_syntax.specs.Expression.{operands_of};
ghost use Rattle.cs_syntax.specs.View.{expression, operands};
ghost use Rattle.cs_value.specs.View.{fields};
ghost use Rattle.cs_view.specs.Scopes.{scope_of};

use crate::conjuncts::conjunct;
use crate::lent::LentKey;
use cs_syntax::{BinSign, Expr};
use cs_value::{Fields, NoMemory};
use cs_view::{Key, Scope};
use std::alloc::Global;

// Whether the operators are `&&` alone.
#[tactic(auto, unfolding(cs_syntax::specs::View::operands))]
fn all_and(rest: &[(BinSign, Expr)]) -> bool
    ensures { result ≡ all_and (operands_of (operands rest.now)) }
{
    let mut left = rest;
    while let Some((operand, later)) = left.split_first() {
        match operand.0 {
            BinSign::And => left = later,
            _ => return false,
        }
    }
    true
}

// Puts a copy of the key last, if there is one.
fn push_copy(alloc: Global, key: Option<LentKey<'_>>, keys: &mut Vec<Key>) -> Result<(), NoMemory>
    ensures { OnOk result (keys.new.items
        ≡ keys.old.items ++ option_to_list (option_map key_lent key.entry)) }
{
    if let Some(key) = key {
        keys.push(key.copied(alloc)?)?;
    }
    Ok(())
}

// Puts the keys last that the conjuncts of the filter give.
#[cycle(given)]
#[tactic(auto, using(crate::proofs::Sets::given), unfolding(cs_syntax::specs::View::expression))]
fn push_given<'f>(
    alloc: Global,
    expr: &'f Expr,
    scope: &Scope<'f>,
    params: &'f Fields,
    keys: &mut Vec<Key>,
) -> Result<(), NoMemory>
    ensures { OnOk result (keys.new.items ≡ keys.old.items
        ++ keys_given (scope_of scope.now) (fields params.now)
        (conjuncts (expression expr.now))) }
{
    match expr {
        Expr::Round(inner) => push_given(alloc, inner, scope, params, keys),
        Expr::Run { first, rest } => {
            if !all_and(rest) {
                return push_copy(alloc, conjunct(expr, scope, params), keys);
            }
            push_given(alloc, first, scope, params, keys)?;
            push_given_by_operands(alloc, rest, scope, params, keys)
        }
        _ => push_copy(alloc, conjunct(expr, scope, params), keys),
    }
}

#[cycle(given)]
#[tactic(auto, using(crate::proofs::Sets::given), unfolding(cs_syntax::specs::View::operands))]
fn push_given_by_operands<'f>(
    alloc: Global,
    rest: &'f [(BinSign, Expr)],
    scope: &Scope<'f>,
    params: &'f Fields,
    keys: &mut Vec<Key>,
) -> Result<(), NoMemory>
    ensures { OnOk result (keys.new.items ≡ keys.old.items
        ++ keys_given (scope_of scope.now) (fields params.now)
        (operand_conjuncts (operands_of (operands rest.now)))) }
{
    for (_, operand) in rest {
        push_given(alloc, operand, scope, params, keys)?;
    }
    Ok(())
}

/// The keys that a filter gives, in the scope in which its chain stands: those of its conjuncts,
/// from the left. A document that makes the filter true has each of them. `NoMemory` where the
/// allocator has no room for them.
pub fn filter_keys<'f>(
    alloc: Global,
    filter: &'f Expr,
    scope: &Scope<'f>,
    params: &'f Fields,
) -> Result<Vec<Key>, NoMemory>
    ensures { IfOk result (λ ks. ks.items
        ≡ filter_keys (expression filter.now) (scope_of scope.now) (fields params.now)) }
{
    let mut keys = Vec::new(alloc);
    push_given(alloc, filter, scope, params, &mut keys)?;
    Ok(keys)
}
