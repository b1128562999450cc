//! The names of steps, and what stands at them.
ghost use Rattle.std.specs.Prelude.{◌≡◌, map, option_map, is_some};
ghost use Rattle.cs_plan.specs.Parts.{tree_at, value_or_null};
ghost use Rattle.cs_plan.specs.Steps.{name_of, names_of};
ghost use Rattle.cs_syntax.specs.Expression.{steps_of};
ghost use Rattle.cs_syntax.specs.View.{step_of};
ghost use Rattle.cs_value.specs.Words.{field};

use cs_syntax::Step;
use cs_value::Val;

/// The name of a step `.w` or `["w"]`: `None` exactly for another step.
#[tactic(auto, unfolding(cs_syntax::specs::View::step_of, cs_syntax::specs::View::expression))]
pub fn name_of(step: &Step) -> Option<&str>
    ensures { option_map (λ s. s.now) result ≡ name_of (step_of step.now) }
{
    match step {
        Step::Attr(name) => Some(name.as_str()),
        Step::Bracket(inner) => inner.text(),
        _ => None,
    }
}

/// Whether each step is `.w` or `["w"]`.
#[tactic(auto, using(crate::proofs::PathNames::named_more))]
pub fn are_names(steps: &[Step]) -> bool
    ensures { result ≡ is_some (names_of (steps_of (map step_of steps.now))) }
{
    for step in steps {
        if name_of(step).is_none() {
            return false;
        }
    }
    true
}

// The attribute of a value. A value that is not there has none.
fn field<'v>(val: Option<&'v Val>, name: &str) -> Option<&'v Val>
    ensures { value_or_null result ≡ field name.now (value_or_null val.entry) }
{
    val?.field(name)
}

/// The value at the names of these steps. A value that is not there stands for null, as does one
/// that is not found; a step that is no name leads to none.
#[tactic(auto, using(crate::proofs::PathNames::tree_at_more))]
pub fn at_names<'v>(val: Option<&'v Val>, steps: &[Step]) -> Option<&'v Val>
    ensures { value_or_null result
        ≡ tree_at (steps_of (map step_of steps.now)) (value_or_null val.entry) }
{
    let mut here = val;
    let mut left = steps;
    while let Some((step, later)) = left.split_first() {
        let name = name_of(step)?;
        here = field(here, name);
        left = later;
    }
    here
}
