//! The form of a simple query.
ghost use Rattle.std.specs.Prelude.{◌≡◌, map};
ghost use Rattle.cs_syntax.specs.Expression.{steps_of};
ghost use Rattle.cs_syntax.specs.Queries.{expression_of};
ghost use Rattle.cs_syntax.specs.View.{expression, step_of};
ghost use Rattle.cs_plan.specs.Simple.{is_simple, is_simple_rest, is_filter, is_tail_step, are_tail_steps, is_condition};
ghost use Rattle.cs_plan.specs.Steps.{bracketed};

use crate::quiet::{quiet_step, quiet_steps};
use cs_syntax::{Expr, Query, Step};

/// Whether the bracket around this expression is a filter: what is in it is neither a position nor
/// a text alone.
#[tactic(auto, using(crate::proofs::Conditions::neither_position_nor_text))]
pub fn is_condition(expr: &Expr) -> bool
    ensures { result ≡ is_condition (bracketed (expression expr.now)) }
{
    !expr.is_position() && !expr.is_text()
}

#[tactic(auto, unfolding(cs_syntax::specs::View::step_of, cs_syntax::specs::View::expression))]
fn is_filter(step: &Step) -> bool
    ensures { result ≡ is_filter (step_of step.now) }
{
    match step {
        Step::Bracket(inner) => is_condition(inner),
        _ => false,
    }
}

#[tactic(auto, unfolding(cs_syntax::specs::View::step_of, cs_syntax::specs::View::expression))]
fn is_tail_step(step: &Step) -> bool
    ensures { result ≡ is_tail_step (step_of step.now) }
{
    match step {
        Step::Deref => false,
        Step::Bracket(inner) => !is_condition(inner),
        Step::Pipe { name, .. } => name.as_str() == "order",
        _ => true,
    }
}

fn are_tail_steps(steps: &[Step]) -> bool
    ensures { result ≡ are_tail_steps (steps_of (map step_of steps.now)) }
{
    for step in steps {
        if !is_tail_step(step) {
            return false;
        }
    }
    true
}

fn is_simple_rest(steps: &[Step]) -> bool
    ensures { result ≡ is_simple_rest (steps_of (map step_of steps.now)) }
{
    let Some((first, later)) = steps.split_first() else {
        return false;
    };
    is_filter(first) && quiet_step(first) && are_tail_steps(later) && quiet_steps(later)
}

#[tactic(auto, unfolding(cs_syntax::specs::View::expression))]
fn is_simple(expr: &Expr) -> bool
    ensures { result ≡ is_simple (expression expr.now) }
{
    match expr {
        Expr::Chain { base, steps } => match &**base {
            Expr::All => is_simple_rest(steps),
            _ => false,
        },
        _ => false,
    }
}

/// Whether a query is simple: `*`, one filter, and attributes, projections, `[]`, slices, elements
/// and piped orders, in all of which neither a further `*` as a value nor `->` stands. It takes no
/// memory.
pub fn simple(query: &Query) -> bool
    ensures { result ≡ is_simple (expression_of query.now) }
{
    is_simple(query.expr())
}
