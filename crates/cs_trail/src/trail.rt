//! Names and dereferences behind a value, followed one after the other.
ghost use Rattle.std.specs.Prelude.{◌≡◌, ◌++◌, IfOk, OnOk, map, true};
ghost use Rattle.cs_syntax.specs.Expression.{steps_of};
ghost use Rattle.cs_syntax.specs.View.{step_of};
ghost use Rattle.cs_parts.specs.Parts.{got};
ghost use Rattle.cs_trail.specs.Trail.{is_link, is_trail, linked, link_looked, trailed, trail_looked};

use cs_parts::{Got, Source, attribute, deref};
use cs_syntax::Step;
use cs_value::NoMemory;
use cs_view::Record;
use std::alloc::Global;

// Whether the step is a name or a dereference.
#[tactic(auto, using(crate::proofs::Sets::links), unfolding(cs_syntax::proofs::Open::of_step))]
fn is_link(step: &Step) -> bool
    ensures { result ≡ is_link (step_of step.now) }
{
    match step {
        Step::Attr(_) | Step::Deref => true,
        Step::Each | Step::Slice { .. } | Step::Bracket(_) | Step::Project(_) | Step::Pipe { .. } =>
            false,
    }
}

/// Whether the steps are names and dereferences alone.
pub fn is_trail(steps: &[Step]) -> bool
    ensures { result ≡ is_trail (steps_of (map step_of steps.now)) }
{
    for step in steps {
        if !is_link(step) {
            return false;
        }
    }
    true
}

// What a name or a dereference makes of a value.
#[tactic(auto, using(crate::proofs::Sets::links), unfolding(cs_syntax::proofs::Open::of_step))]
fn link<'s, S: Source<C>, C>(
    alloc: Global,
    step: &Step,
    source: &'s S,
    value: Got<'s>,
    keys: &mut Record,
    count: &mut C,
) -> Result<Got<'s>, NoMemory>
    ensures value { IfOk result (λ g. got g
        ≡ linked (S.docs source.now) (step_of step.now) (got value.entry)) }
    ensures keys { OnOk result (keys.new
        ≡ keys.old ++ link_looked (step_of step.now) (got value.entry)) }
{
    match step {
        Step::Attr(name) => Ok(attribute(value, name)),
        Step::Deref => deref(alloc, value, source, keys, count),
        Step::Each | Step::Slice { .. } | Step::Bracket(_) | Step::Project(_) | Step::Pipe { .. } =>
            Ok(value),
    }
}

/// What names and dereferences make of a value; the record takes the keys that they look up. Each
/// takes one value and gives one, so that none is mapped and no kind of a rest is asked for. It
/// fails where memory is refused.
pub fn follow<'s, S: Source<C>, C>(
    alloc: Global,
    steps: &[Step],
    source: &'s S,
    value: Got<'s>,
    keys: &mut Record,
    count: &mut C,
) -> Result<Got<'s>, NoMemory>
    ensures value { IfOk result (λ g. got g
        ≡ trailed (S.docs source.now) (steps_of (map step_of steps.now)) (got value.entry)) }
    ensures keys { OnOk result (keys.new ≡ keys.old
        ++ trail_looked (S.docs source.now) (steps_of (map step_of steps.now)) (got value.entry)) }
{
    let mut here = value;
    for step in steps {
        here = link(alloc, step, source, here, keys, count)?;
    }
    Ok(here)
}
