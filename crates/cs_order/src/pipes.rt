//! The parts of a piped call.
ghost use Rattle.std.specs.Prelude.{◌≡◌, IfSome, IfNone, false, map};
ghost use Rattle.cs_syntax.specs.Expression.{keys_of, pipe};
ghost use Rattle.cs_syntax.specs.View.{step_of, order_key_of};
ghost use Rattle.cs_meaning.specs.Values.{is_pipe};

use cs_syntax::{OrderKey, Step};
use cs_value::Txt;

/// The name of a piped call and its keys, none of another step.
#[tactic(auto, using(cs_syntax::proofs::Views::step_pipe), unfolding(cs_syntax::specs::View::step_of))]
pub fn pipe_of(step: &Step) -> Option<(&Txt, &[OrderKey])>
    ensures some { IfSome result (λ x. step_of step.now
        ≡ pipe x.0.now (keys_of (map order_key_of x.1.now))) }
    ensures none { IfNone result (is_pipe (step_of step.now) ≡ false) }
{
    match step {
        Step::Pipe { name, keys } => Some((name, keys)),
        _ => None,
    }
}
