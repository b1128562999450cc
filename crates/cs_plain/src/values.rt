//! The values of operands over one document.
ghost use Rattle.std.specs.Prelude.{◌≡◌, map, option_map};
ghost use Rattle.cs_syntax.specs.Expression.{steps_of, arguments_of};
ghost use Rattle.cs_syntax.specs.View.{expression, step_of, argument_of};
ghost use Rattle.cs_value.specs.View.{tree, fields};
ghost use Rattle.cs_parts.specs.Callees.{meant};
ghost use Rattle.cs_operand.specs.Operands.{operand};
ghost use Rattle.cs_plain.specs.Truths.{negated as negated_of, chain_value, measured, operand_value, one_value, one_argument};

use cs_func::Function;
use cs_operand::Operand;
use cs_parts::{Callee, callee_of};
use cs_plan::{at_names, negative_of};
use cs_syntax::{Arg, Expr, Step};
use cs_value::{Fields, Val};

// The value of a number behind one `-`.
fn negative<'v>(number: Option<&str>) -> Operand<'v>
    ensures { operand result ≡ negated_of (option_map (λ s. s.now) number.entry) }
{
    match number {
        Some(number) => Operand::written(number).negated(),
        None => Operand::Null,
    }
}

#[tactic(auto, unfolding(cs_syntax::specs::View::expression))]
fn chain_value<'v>(base: &Expr, steps: &[Step], doc: &'v Val) -> Operand<'v>
    ensures { operand result ≡ chain_value (expression base.now)
        (steps_of (map step_of steps.now)) (tree doc.now) }
{
    match base {
        Expr::Word(word) => Operand::or_null(at_names(doc.attribute(word), steps)),
        _ => Operand::Null,
    }
}

fn measured<'v>(callee: Callee, a: Operand<'v>) -> Operand<'v>
    ensures { operand result ≡ measured (meant callee) (operand a.entry) }
{
    match callee {
        Callee::Values(Some(Function::Count)) => a.count(),
        Callee::Values(Some(Function::Length)) => a.size(),
        _ => Operand::Null,
    }
}

/// The value of an operand over the document.
#[cycle(operand)]
#[tactic(auto, using(crate::proofs::Sets::chain), unfolding(cs_syntax::specs::View::expression))]
pub(crate) fn operand<'v>(expr: &'v Expr, params: &'v Fields, doc: &'v Val) -> Operand<'v>
    ensures { operand result ≡ operand_value (fields params.now) (tree doc.now)
        (expression expr.now) }
{
    match expr {
        Expr::Bool(b) => Operand::Bool(*b),
        Expr::Number(number) => Operand::written(number.as_str()),
        Expr::Text(text) => Operand::Text(text),
        Expr::Param(name) => Operand::or_null(params.get(name.as_str())),
        Expr::Word(word) => Operand::or_null(doc.attribute(word)),
        Expr::This => Operand::of(doc),
        Expr::Chain { base, steps } => chain_value(base, steps, doc),
        Expr::Prefix { signs, operand } => negative(negative_of(signs, operand)),
        Expr::Call { name, args } => measured(callee_of(name.as_str()), one(args, params, doc)),
        _ => Operand::Null,
    }
}

/// The value of the one argument.
#[cycle(operand)]
pub(crate) fn one<'v>(args: &'v [Arg], params: &'v Fields, doc: &'v Val) -> Operand<'v>
    ensures { operand result ≡ one_value (fields params.now) (tree doc.now)
        (arguments_of (map argument_of args.now)) }
{
    let Some((first, others)) = args.split_first() else {
        return Operand::Null;
    };
    if others.len() > 0 {
        return Operand::Null;
    }
    argument(first, params, doc)
}

/// The value of an argument.
#[cycle(operand)]
#[tactic(auto, unfolding(cs_syntax::specs::View::argument_of, cs_syntax::specs::View::expression))]
pub(crate) fn argument<'v>(arg: &'v Arg, params: &'v Fields, doc: &'v Val) -> Operand<'v>
    ensures { operand result ≡ one_argument (fields params.now) (tree doc.now)
        (argument_of arg.now) }
{
    match arg {
        Arg::One(expr) => operand(expr, params, doc),
        Arg::When(_, _) => Operand::Null,
    }
}
