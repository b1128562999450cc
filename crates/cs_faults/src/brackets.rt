//! What is computed of constants alone.
ghost use Rattle.std.specs.Prelude.{◌≡◌};
ghost use Rattle.cs_syntax.specs.Expression.{operands_of};
ghost use Rattle.cs_syntax.specs.Brackets.{are_signs, is_arithmetic, is_constant, are_constant};
ghost use Rattle.cs_syntax.specs.View.{expression, operands};

use cs_syntax::{BinSign, Expr, PreSign};

fn are_signs(signs: &[PreSign]) -> bool
    ensures { result ≡ are_signs signs.now }
{
    for sign in signs {
        if let PreSign::Not = sign {
            return false;
        }
    }
    true
}

fn is_arithmetic(sign: BinSign) -> bool
    ensures { result ≡ is_arithmetic sign }
{
    match sign {
        BinSign::Add | BinSign::Sub | BinSign::Mul | BinSign::Div | BinSign::Rem => true,
        _ => false,
    }
}

/// Whether the expression is made only of numbers, texts, round brackets, `+` and `-` in front, and
/// arithmetic. It looks into no bracket of a step, so each part of a tree is looked at once by the
/// bracket around it.
#[cycle(constant)]
#[tactic(auto, using(crate::proofs::Sets::run), unfolding(cs_syntax::specs::View::expression))]
pub(crate) fn is_constant(expr: &Expr) -> bool
    ensures { result ≡ is_constant (expression expr.now) }
{
    match expr {
        Expr::Number(_) | Expr::Text(_) => true,
        Expr::Round(inner) => is_constant(inner),
        Expr::Prefix { signs, operand } => are_signs(signs) && is_constant(operand),
        Expr::Run { first, rest } => is_constant(first) && are_constant(rest),
        _ => false,
    }
}

#[cycle(constant)]
#[tactic(auto, unfolding(cs_syntax::specs::View::operands))]
fn are_constant(rest: &[(BinSign, Expr)]) -> bool
    ensures { result ≡ are_constant (operands_of (operands rest.now)) }
{
    for (sign, operand) in rest {
        if !is_arithmetic(*sign) || !is_constant(operand) {
            return false;
        }
    }
    true
}
