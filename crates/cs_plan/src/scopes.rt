//! The values of a scope.
ghost use Rattle.std.specs.Prelude.{◌≡◌, ◌∷◌, option_map, slice_get};
ghost use Rattle.cs_plan.specs.Parts.{value_or_null};
ghost use Rattle.cs_plan.specs.Steps.{in_scope};
ghost use Rattle.cs_value.specs.Tree.{null};
ghost use Rattle.cs_value.specs.View.{tree};
ghost use Rattle.cs_view.specs.Scopes.{scope_of};

use cs_value::Val;
use cs_view::Scope;

/// The value so many levels out in a scope, 0 being `@` and 1 `^`: `None` exactly where the scope
/// is too short.
#[tactic(auto, using(crate::proofs::Levels::one_out))]
pub fn up<'s>(scope: &Scope<'s>, level: u32) -> Option<&'s Val>
    ensures { option_map (λ v. tree v.now) result ≡ slice_get (scope_of scope.now) level }
{
    if level == 0 {
        return Some(scope.this);
    }
    match scope.parent {
        Some(parent) => up(parent, level - 1),
        None => None,
    }
}

/// The same where a document that is not yet known stands in front of the scope: it is taken for
/// null, so for no value.
#[tactic(auto, using(crate::proofs::Levels::one_out))]
pub(crate) fn up_from_unknown<'s>(scope: &Scope<'s>, level: u32) -> Option<&'s Val>
    ensures { value_or_null result ≡ in_scope level (null ∷ scope_of scope.now) }
{
    if level == 0 {
        return None;
    }
    up(scope, level - 1)
}
