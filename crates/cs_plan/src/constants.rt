//! Constants: the values that a filter can name before any document is looked at.
ghost use Rattle.std.specs.Prelude.{◌≡◌, option_map};
ghost use Rattle.cs_plan.specs.Constants.{constant, scalar_of};
ghost use Rattle.cs_plan.specs.Parts.{number_scalar, value_or_null};
ghost use Rattle.cs_plan.specs.Lent.{scalar_lent};
ghost use Rattle.cs_syntax.specs.View.{expression};
ghost use Rattle.cs_value.specs.View.{tree, fields};
ghost use Rattle.cs_view.specs.Scopes.{scope_of};

use crate::lent::LentScalar;
use crate::numbers::{literal, negative_of};
use crate::scopes::up_from_unknown;
use crate::steps::at_names;
use cs_ops::{Pre, prefix};
use cs_syntax::Expr;
use cs_value::{Fields, Val};
use cs_view::Scope;

// The scalar that a number is; none of any other value.
fn number_scalar<'f>(val: &Val) -> Option<LentScalar<'f>>
    ensures { option_map scalar_lent result ≡ number_scalar (tree val.now) }
{
    match val {
        Val::Num(n) => Some(LentScalar::Num(*n)),
        _ => None,
    }
}

// The text, number or boolean that a value is. A value that is not there is none.
fn scalar_of(val: Option<&Val>) -> Option<LentScalar<'_>>
    ensures { option_map scalar_lent result ≡ scalar_of (value_or_null val.entry) }
{
    match val? {
        Val::Bool(b) => Some(LentScalar::Bool(*b)),
        Val::Num(n) => Some(LentScalar::Num(*n)),
        Val::Text(text) => Some(LentScalar::Text(text.as_str())),
        _ => None,
    }
}

/// The constant that an expression is, in the scope in which the filter's chain stands: `None`
/// exactly where it is none.
#[tactic(auto, using(crate::proofs::Sets::constant), unfolding(cs_syntax::specs::View::expression))]
pub(crate) fn constant<'f>(
    expr: &'f Expr,
    scope: &Scope<'f>,
    params: &'f Fields,
) -> Option<LentScalar<'f>>
    ensures { option_map scalar_lent result
        ≡ constant (expression expr.now) (scope_of scope.now) (fields params.now) }
{
    match expr {
        Expr::Text(text) => Some(LentScalar::Text(text.as_str())),
        Expr::Number(number) => number_scalar(&literal(number.as_str())),
        Expr::Prefix { signs, operand } => {
            let number = negative_of(signs, operand)?;
            number_scalar(&prefix(Pre::Minus, &literal(number)))
        }
        Expr::Bool(b) => Some(LentScalar::Bool(*b)),
        Expr::Param(name) => scalar_of(params.get(name.as_str())),
        Expr::Up(level) => scalar_of(up_from_unknown(scope, *level)),
        Expr::Chain { base, steps } => match &**base {
            Expr::Up(level) => {
                let val = up_from_unknown(scope, *level);
                scalar_of(at_names(val, steps))
            }
            _ => None,
        },
        _ => None,
    }
}
