//! Which queries a listener may have.
ghost use Rattle.std.specs.Prelude.{◌≡◌, is_some, map};
ghost use Rattle.cs_syntax.specs.Expression.{steps_of};
ghost use Rattle.cs_syntax.specs.View.{expression, step_of};
ghost use Rattle.cs_plain.specs.Plain.{filter_in, filter_alone, listened_filter};

use crate::forms::is_plain;
use cs_plan::is_condition;
use cs_syntax::{Expr, Step};

// A filter with a plain condition.
#[tactic(auto, using(crate::proofs::Sets::filter), unfolding(cs_syntax::proofs::Open::of_step))]
fn is_plain_filter(step: &Step) -> bool
    ensures { result ≡ is_some (filter_in (step_of step.now)) }
{
    match step {
        Step::Bracket(inner) => is_condition(inner) && is_plain(inner),
        _ => false,
    }
}

// One such filter alone.
fn is_filter_alone(steps: &[Step]) -> bool
    ensures { result ≡ is_some (filter_alone (steps_of (map step_of steps.now))) }
{
    let Some((first, others)) = steps.split_first() else {
        return false;
    };
    if let Some(_) = others.split_first() {
        return false;
    }
    is_plain_filter(first)
}

/// Whether a listener may have the query.
#[tactic(auto, using(crate::proofs::Sets::listened), unfolding(cs_syntax::specs::View::expression))]
pub(crate) fn is_listened(expr: &Expr) -> bool
    ensures { result ≡ is_some (listened_filter (expression expr.now)) }
{
    match expr {
        Expr::All => true,
        Expr::Chain { base, steps } => match &**base {
            Expr::All => is_filter_alone(steps),
            _ => false,
        },
        _ => false,
    }
}
