//! The keys of a plain predicate.
ghost use Rattle.std.specs.Prelude.{◌≡◌, IfOk, map, option_map};
ghost use Rattle.cs_syntax.specs.Expression.{steps_of};
ghost use Rattle.cs_syntax.specs.View.{expression, step_of};
ghost use Rattle.cs_value.specs.Tree.{null as null_tree};
ghost use Rattle.cs_value.specs.View.{tree, fields};
ghost use Rattle.cs_plain.specs.Keyed.{predicate_keys, step_condition, first_condition, query_condition};
ghost use Rattle.cs_plain.specs.Predicates.{filter};

use crate::predicate::Plain;
use cs_plan::filter_keys;
use cs_syntax::{Expr, Step};
use cs_value::{Fields, NoMemory, Val};
use cs_view::{Key, Scope};
use std::alloc::Global;

#[tactic(auto, unfolding(cs_syntax::specs::View::step_of, cs_syntax::specs::View::expression))]
fn step_condition(step: &Step) -> Option<&Expr>
    ensures { option_map (λ e. expression e.now) result ≡ step_condition (step_of step.now) }
{
    match step {
        Step::Bracket(inner) => Some(inner),
        _ => None,
    }
}

fn first_condition(steps: &[Step]) -> Option<&Expr>
    ensures { option_map (λ e. expression e.now) result
        ≡ first_condition (steps_of (map step_of steps.now)) }
{
    match steps.split_first() {
        Some((step, _)) => step_condition(step),
        None => None,
    }
}

// The condition of a query's filter.
#[tactic(auto, using(crate::proofs::Sets::steps), unfolding(cs_syntax::specs::View::expression))]
fn query_condition(expr: &Expr) -> Option<&Expr>
    ensures { option_map (λ e. expression e.now) result ≡ query_condition (expression expr.now) }
{
    match expr {
        Expr::Chain { steps, .. } => first_condition(steps),
        _ => None,
    }
}

// The keys of a condition in the scope of null alone.
fn condition_keys(
    alloc: Global,
    condition: &Expr,
    null: &Val,
    params: &Fields,
) -> Result<Vec<Key>, NoMemory>
    requires { tree null.now ≡ null_tree }
    ensures { IfOk result
        (λ ks. ks.items ≡ predicate_keys (expression condition.now) (fields params.now)) }
{
    let root = Scope {
        this: null,
        parent: None,
    };
    filter_keys(alloc, condition, &root, params)
}

/// The keys of a predicate, each of which a document has that makes its filter true: those that the
/// filter's conjuncts give in the scope of null alone, from the left. `NoMemory` where the
/// allocator has no room for them.
pub fn keys(alloc: Global, predicate: &Plain, params: &Fields) -> Result<Vec<Key>, NoMemory>
    ensures { IfOk result
        (λ ks. ks.items ≡ predicate_keys (filter predicate.now) (fields params.now)) }
{
    match query_condition(predicate.expr()) {
        Some(condition) => condition_keys(alloc, condition, predicate.null(), params),
        None => Ok(Vec::new(alloc)),
    }
}
