//! Names behind a value, followed through objects.
ghost use Rattle.std.specs.Prelude.{◌≡◌, map, option_map};
ghost use Rattle.cs_syntax.specs.Expression.{steps_of};
ghost use Rattle.cs_syntax.specs.View.{step_of};
ghost use Rattle.cs_direct.specs.Follows.{followed};
ghost use Rattle.cs_operand.specs.Operands.{operand};

use cs_operand::Operand;
use cs_plan::name_of;
use cs_syntax::Step;

/// What the steps of a chain make of a value, where they are names alone: `None` exactly where
/// another step is among them.
pub(crate) fn follow<'s>(steps: &[Step], start: Operand<'s>) -> Option<Operand<'s>>
    ensures { option_map operand result
        ≡ followed (steps_of (map step_of steps.now)) (operand start.entry) }
{
    let mut here = start;
    for step in steps {
        here = here.field(name_of(step)?);
    }
    Some(here)
}
