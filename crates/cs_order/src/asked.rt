//! How many of the first elements of a list the rest of a chain looks at.
ghost use Rattle.std.specs.Prelude.{◌≡◌, ◌≤◌, IfSome, Some, map, pos};
ghost use Rattle.cs_syntax.specs.Expression.{steps_of};
ghost use Rattle.cs_syntax.specs.View.{expression, step_of};
ghost use Rattle.cs_plan.specs.Steps.{bracketed, position_of as position_in};
ghost use Rattle.cs_order.specs.Asked.{slice_end, bracket_end, step_end, first_asked};

use cs_parts::{Bracket, bracket_of, position_of};
use cs_syntax::{Expr, Step};

// Above this the whole list is sorted: a place among so many would take too long to make.
const MOST: i64 = 256;

/// How many of the first elements a rest looks at, where its first step says so and they are few:
/// 257 at most.
pub fn first_asked(steps: &[Step]) -> Option<usize>
    ensures asked { IfSome result
        (λ k. first_asked (steps_of (map step_of steps.now)) ≡ Some k) }
    ensures few { IfSome result (λ k. k ≤ 257) }
{
    let (first, _) = steps.split_first()?;
    step_end(first)
}

// The same of one step.
#[tactic(auto, using(crate::proofs::Sets::slice), unfolding(cs_syntax::proofs::Open::of_step))]
fn step_end(step: &Step) -> Option<usize>
    ensures asked { IfSome result (λ k. step_end (step_of step.now) ≡ Some k) }
    ensures few { IfSome result (λ k. k ≤ 257) }
{
    match step {
        Step::Slice { from, to, closed } => slice_end(from, to, *closed),
        Step::Bracket(inner) => bracket_end(inner),
        _ => None,
    }
}

// The end of a slice that starts and ends at places counted from the start.
fn slice_end(from: &Expr, to: &Expr, closed: bool) -> Option<usize>
    ensures asked { IfSome result (λ k. slice_end (position_in (expression from.now))
        (position_in (expression to.now)) closed ≡ Some k) }
    ensures few { IfSome result (λ k. k ≤ 257) }
{
    let _start = front(position_of(from)??)?;
    let end = front(position_of(to)??)?;
    Some(if closed { end + 1 } else { end })
}

// The place behind an element that is counted from the start.
fn bracket_end(inner: &Expr) -> Option<usize>
    ensures asked { IfSome result
        (λ k. bracket_end (bracketed (expression inner.now)) ≡ Some k) }
    ensures few { IfSome result (λ k. k ≤ 257) }
{
    match bracket_of(inner) {
        Bracket::Position(place) => Some(front(place?)? + 1),
        _ => None,
    }
}

// The place, where it is counted from the start and near it.
fn front(place: i64) -> Option<usize>
    ensures place { IfSome result (λ n. place ≡ pos n) }
    ensures near { IfSome result (λ n. n ≤ 256) }
{
    if place < 0 || place > MOST {
        None
    } else {
        Some(place as usize)
    }
}
