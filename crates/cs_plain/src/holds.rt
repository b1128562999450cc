//! Whether a plain predicate is true of a document.
ghost use Rattle.std.specs.Prelude.{◌≡◌, unwrap_or, false, map};
ghost use Rattle.cs_syntax.specs.Expression.{steps_of};
ghost use Rattle.cs_syntax.specs.View.{expression, step_of};
ghost use Rattle.cs_value.specs.View.{tree, fields};
ghost use Rattle.cs_view.specs.View.{document_of};
ghost use Rattle.cs_plain.specs.Holds.{holds};
ghost use Rattle.cs_plain.specs.Predicates.{filter};
ghost use Rattle.cs_plain.specs.Truths.{first_truth, step_truth, query_truth};

use crate::conditions::condition;
use crate::predicate::Plain;
use cs_syntax::{Expr, Step};
use cs_value::{Fields, Val};
use cs_view::Doc;

fn or_false(truth: Option<bool>) -> bool
    ensures { result ≡ unwrap_or truth false }
{
    truth.unwrap_or(false)
}

#[tactic(auto, unfolding(cs_syntax::specs::View::step_of, cs_syntax::specs::View::expression))]
fn step_truth(step: &Step, params: &Fields, doc: &Val) -> bool
    ensures { result ≡ step_truth (fields params.now) (tree doc.now) (step_of step.now) }
{
    match step {
        Step::Bracket(inner) => or_false(condition(inner, params, doc)),
        _ => false,
    }
}

fn first_truth(steps: &[Step], params: &Fields, doc: &Val) -> bool
    ensures { result ≡ first_truth (fields params.now) (tree doc.now)
        (steps_of (map step_of steps.now)) }
{
    match steps.split_first() {
        Some((step, _)) => step_truth(step, params, doc),
        None => false,
    }
}

#[tactic(auto, using(crate::proofs::Sets::steps), unfolding(cs_syntax::specs::View::expression))]
fn query_truth(expr: &Expr, params: &Fields, doc: &Val) -> bool
    ensures { result ≡ query_truth (fields params.now) (tree doc.now) (expression expr.now) }
{
    match expr {
        Expr::All => true,
        Expr::Chain { steps, .. } => first_truth(steps, params, doc),
        _ => false,
    }
}

/// Whether the filter is true of the document: null is not true. It takes no memory, and looks at
/// no other document.
pub fn test(predicate: &Plain, params: &Fields, doc: &Doc) -> bool
    ensures { result ≡ holds (filter predicate.now) (fields params.now) (document_of doc.now) }
{
    query_truth(predicate.expr(), params, doc.val())
}
