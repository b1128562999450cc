//! Functions of values that need no memory.
ghost use Rattle.std.specs.Prelude.{◌≡◌, ◌∷◌, [], IfSome, Some, None};
ghost use Rattle.cs_func.specs.Functions.{value};
ghost use Rattle.cs_meaning.specs.Operators.{applied, applying, callee};
ghost use Rattle.cs_syntax.specs.View.{expression};
ghost use Rattle.cs_direct.specs.Few.{few};
ghost use Rattle.cs_direct.specs.Paths.{is_path_call};
ghost use Rattle.cs_operand.specs.Operands.{operand};

use crate::few::Few;
use cs_func::Function;
use cs_operand::Operand;
use cs_parts::{Callee, callee_of};
use cs_syntax::{Expr, is_path};

/// The value of a function of one argument. `None` of other functions.
pub(crate) fn of_one<'s>(function: Function, a: Operand<'s>) -> Option<Operand<'s>>
    ensures { IfSome result (λ o. operand o ≡ value function (operand a.entry) None) }
{
    match function {
        Function::Count => Some(a.count()),
        Function::Length => Some(a.size()),
        Function::Defined => Some(Operand::Bool(a.is_defined())),
        _ => None,
    }
}

/// The value of a function of two arguments. `None` of other functions.
pub(crate) fn of_two<'s>(function: Function, a: Operand<'s>, b: Operand<'s>) -> Option<Operand<'s>>
    ensures { IfSome result (λ o. operand o
        ≡ applied (Some function) (operand a.entry ∷ operand b.entry ∷ [])) }
{
    match function {
        Function::StartsWith => Some(Operand::said(a.begins(b))),
        _ => None,
    }
}

/// The function of values that a name calls. `None` says nothing. The names of those that need no
/// memory are told at once, since a filter asks for each document; every other name, theirs with
/// `global::` in front too, is sought among all.
pub(crate) fn function_of(name: &str) -> Option<Function>
    ensures { IfSome result (λ f. callee name.now ≡ applying (Some f)) }
{
    match name {
        "count" => Some(Function::Count),
        "length" => Some(Function::Length),
        "defined" => Some(Function::Defined),
        "string::startsWith" => Some(Function::StartsWith),
        _ => match callee_of(name) {
            Callee::Values(Some(function)) => Some(function),
            _ => None,
        },
    }
}

/// The value of a function of these arguments. `None` says nothing.
pub(crate) fn applied<'s>(function: Function, values: Few<'s>) -> Option<Operand<'s>>
    ensures { IfSome result (λ o. operand o ≡ applied (Some function) (few values.entry)) }
{
    match values {
        Few::Zero => None,
        Few::One(only) => of_one(function, only),
        Few::Two(first, second) => of_two(function, first, second),
    }
}

/// Whether an expression is a call of `path`.
#[tactic(auto, using(crate::proofs::Sets::nodes), unfolding(cs_syntax::specs::View::expression))]
pub(crate) fn is_path_call(expr: &Expr) -> bool
    ensures { result ≡ is_path_call (expression expr.now) }
{
    match expr {
        Expr::Call { name, .. } => is_path(name.as_str()),
        _ => false,
    }
}
