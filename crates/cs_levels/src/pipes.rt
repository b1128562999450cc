//! Where a chain begins, and where its next piped call stands.
ghost use Rattle.std.specs.Prelude.{◌≡◌, ◌&&◌, IfSome, IfNone, Some, None, true, false, map};
ghost use Rattle.cs_syntax.specs.Expression.{bracket, more_steps, pipe, keys_of};
ghost use Rattle.cs_syntax.specs.View.{expression, step_of, order_key_of};
ghost use Rattle.cs_plan.specs.Steps.{bracketed, condition};
ghost use Rattle.cs_meaning.specs.Joining.{base_entrance};
ghost use Rattle.cs_meaning.specs.Looked.{is_everything, starts_with_filter};
ghost use Rattle.cs_parts.specs.Kinds.{kinds_of};
ghost use Rattle.cs_levels.specs.Nodes.{first_pipe, steps_in};

use crate::levels::Remaining;
use cs_order::pipe_of;
use cs_parts::{Entrance, Kind, behind, entrance_of, gives_array, head_filter, is_all};
use cs_syntax::{Expr, OrderKey};
use cs_value::Txt;

/// A piped call, and what is left of the chain behind it.
#[derive(Clone, Copy)]
pub struct Piped<'s, 'k> {
    pub name: &'s Txt,
    pub order: &'s [OrderKey],
    pub later: Remaining<'s, 'k>,
}

/// The first piped call of a rest.
pub fn next_pipe<'s, 'k>(rest: Remaining<'s, 'k>) -> Option<Piped<'s, 'k>>
    requires { rest.kinds.now ≡ kinds_of (map step_of rest.steps.now) }
    ensures some { IfSome result (λ p. first_pipe (steps_in rest.entry) ≡ Some
        (pipe p.name.now (keys_of (map order_key_of p.order.now)), steps_in p.later)) }
    ensures kinds { IfSome result (λ p. p.later.kinds.now
        ≡ kinds_of (map step_of p.later.steps.now)) }
    ensures none { IfNone result (first_pipe (steps_in rest.entry) ≡ None) }
{
    let mut left = rest;
    while let Some((first, later)) = left.steps.split_first() {
        let later = Remaining {
            steps: later,
            kinds: behind(left.kinds),
        };
        if let Some((name, order)) = pipe_of(first) {
            return Some(Piped { name, order, later });
        }
        left = later;
    }
    None
}

/// How the value of a base enters a rest of this kind.
pub fn base_entrance(base: &Expr, kind: Kind) -> Entrance
    ensures { result ≡ base_entrance (expression base.now) kind }
{
    if gives_array(base) {
        entrance_of(kind)
    } else {
        Entrance::Whole
    }
}

/// The filter of a `*` that has one as its first step, and the rest behind it.
pub fn filter_of_all<'s, 'k>(
    base: &Expr,
    rest: Remaining<'s, 'k>,
) -> Option<(&'s Expr, Remaining<'s, 'k>)>
    requires { rest.kinds.now ≡ kinds_of (map step_of rest.steps.now) }
    ensures base { IfSome result (λ x. is_everything (expression base.now) ≡ true) }
    ensures some { IfSome result (λ x. steps_in rest.entry
        ≡ more_steps (bracket (expression x.0.now)) (steps_in x.1)) }
    ensures condition { IfSome result (λ x. bracketed (expression x.0.now) ≡ condition) }
    ensures kinds { IfSome result (λ x. x.1.kinds.now ≡ kinds_of (map step_of x.1.steps.now)) }
    ensures none { IfNone result
        (is_everything (expression base.now) && starts_with_filter (steps_in rest.entry) ≡ false) }
{
    if !is_all(base) {
        return None;
    }
    match head_filter(rest.steps) {
        Some((condition, later)) => Some((
            condition,
            Remaining {
                steps: later,
                kinds: behind(rest.kinds),
            },
        )),
        None => None,
    }
}
