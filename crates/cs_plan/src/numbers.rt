//! Numbers as they are written.
ghost use Rattle.std.specs.Prelude.{◌≡◌, option_map};
ghost use Rattle.cs_plan.specs.Constants.{literal};
ghost use Rattle.cs_plan.specs.Parts.{negative_of};
ghost use Rattle.cs_syntax.specs.View.{expression};
ghost use Rattle.cs_value.specs.View.{tree};

use cs_syntax::{Expr, PreSign, written_number};
use cs_value::Val;

/// The value of a number as it is written: null where it has a fraction or an exponent, or is not
/// below 2^63.
pub fn literal(number: &str) -> Val
    ensures { tree result ≡ literal number.now }
{
    match written_number(number) {
        Some(n) => Val::Num(n),
        None => Val::Null,
    }
}

/// The number alone behind one `-`, as it is written: `None` exactly where the signs are others, or
/// something else stands behind them.
#[tactic(auto, unfolding(cs_syntax::specs::View::expression))]
pub fn negative_of<'e>(signs: &[PreSign], operand: &'e Expr) -> Option<&'e str>
    ensures { option_map (λ s. s.now) result ≡ negative_of signs.now (expression operand.now) }
{
    match signs {
        [PreSign::Minus] => match operand {
            Expr::Number(number) => Some(number.as_str()),
            _ => None,
        },
        _ => None,
    }
}
