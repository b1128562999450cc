//! The values at hand that expressions name.
ghost use Rattle.std.specs.Prelude.{◌≡◌, [], List, IfSome, map, option_map};
ghost use Rattle.cs_value.specs.Tree.{Tree, Pairs};
ghost use Rattle.cs_value.specs.View.{tree};
ghost use Rattle.cs_syntax.specs.Expression.{steps_of};
ghost use Rattle.cs_syntax.specs.View.{expression, step_of};
ghost use Rattle.cs_view.specs.Scopes.{scope_of};
ghost use Rattle.cs_meaning.specs.Values.{value as value_of};
ghost use Rattle.cs_meaning.specs.Looked.{looked};
ghost use Rattle.cs_direct.specs.Named.{behind, named};

use cs_plan::{name_of, up};
use cs_syntax::{Expr, Step};
use cs_value::Val;
use cs_view::Scope;

/// The value itself where the expression names one that is at hand: `@`, `^`, a word, or names
/// behind one of these. It is then the value over every dataset. `None` says nothing.
pub fn direct_part<'s>(expr: &Expr, frame: &Scope<'s>) -> Option<&'s Val>
    ensures value { IfSome result (λ v. (docs : List Tree) (params : Pairs) → tree v.now
        ≡ value_of docs params (expression expr.now) (scope_of frame.now)) }
    ensures quiet { IfSome result (λ _. (docs : List Tree) (params : Pairs) → looked docs params
        (expression expr.now) (scope_of frame.now) ≡ []) }
{
    named(expr, frame)
}

// The same by the definition of names.
#[tactic(auto, using(crate::proofs::Sets::nodes), unfolding(cs_syntax::specs::View::expression))]
fn named<'s>(expr: &Expr, frame: &Scope<'s>) -> Option<&'s Val>
    ensures { option_map (λ v. tree v.now) result
        ≡ named (expression expr.now) (scope_of frame.now) }
{
    match expr {
        Expr::This => up(frame, 0),
        Expr::Up(level) => up(frame, *level),
        Expr::Word(name) => up(frame, 0)?.attribute(name),
        Expr::Chain { base, steps } => behind(steps, named(base, frame)?),
        _ => None,
    }
}

// The value behind names.
fn behind<'s>(steps: &[Step], start: &'s Val) -> Option<&'s Val>
    ensures { option_map (λ v. tree v.now) result
        ≡ behind (steps_of (map step_of steps.now)) (tree start.now) }
{
    let mut here = start;
    for step in steps {
        here = here.field(name_of(step)?)?;
    }
    Some(here)
}
