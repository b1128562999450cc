//! The values of expressions, as far as they need no memory.
ghost use Rattle.std.specs.Prelude.{◌≡◌, ◌∷◌, [], List, IfSome, map, if◌then◌else◌};
ghost use Rattle.std.specs.List.{list_any};
ghost use Rattle.cs_value.specs.Tree.{Tree};
ghost use Rattle.cs_value.specs.View.{fields};
ghost use Rattle.cs_syntax.specs.Expression.{operands_of, arguments_of, elements_of, steps_of, call as call_node, chain as chain_node, prefix as prefix_node};
ghost use Rattle.cs_syntax.specs.View.{expression, operands, argument_of, element_of, step_of};
ghost use Rattle.cs_view.specs.Scopes.{scope_of};
ghost use Rattle.cs_ops.specs.Equal.{equal};
ghost use Rattle.cs_ops.specs.Operators.{within as within_list};
ghost use Rattle.cs_meaning.specs.Operators.{operated, decides, operator_of, in_path, in_list_or_path, sole};
ghost use Rattle.cs_meaning.specs.Values.{value as value_of, run_value, argument_value, arguments_values, element_values, elements_values, path_pattern};
ghost use Rattle.cs_meaning.specs.Looked.{looked, run_looked, argument_looked, arguments_looked, element_looked, elements_looked};
ghost use Rattle.cs_direct.specs.Few.{few};
ghost use Rattle.cs_operand.specs.Operands.{operand};
ghost use Rattle.cs_direct.specs.Paths.{arguments_in};

use crate::few::Few;
use crate::follow::follow;
use crate::functions::{applied, function_of, is_path_call};
use crate::operators::{decides, operated, signed};
use cs_meaning::looked_settles_value;
use cs_operand::Operand;
use cs_parts::gives_array;
use cs_plan::up;
use cs_syntax::{Arg, BinSign, Elem, Expr, PreSign, Step};
use cs_value::Fields;
use cs_view::Scope;

/// The value of an expression in a scope, where it is found without memory and without looking up a
/// document: it is then the value over every dataset. `None` says nothing.
pub fn direct<'s>(expr: &'s Expr, frame: &Scope<'s>, params: &'s Fields) -> Option<Operand<'s>>
    ensures value { IfSome result (λ o. (docs : List Tree) → operand o
        ≡ value_of docs (fields params.now) (expression expr.now) (scope_of frame.now)) }
    ensures quiet { IfSome result (λ _. (docs : List Tree) → looked docs (fields params.now)
        (expression expr.now) (scope_of frame.now) ≡ []) }
{
    looked_settles_value();
    evaluate(expr, frame, params)
}

// The same over no documents. The forms with several operands have functions of their own, since a
// call sets room for all results that it may wait for, and most expressions wait for one.
#[cycle(evaluate)]
#[tactic(auto, using(crate::proofs::Sets::nodes), unfolding(cs_syntax::specs::View::expression))]
fn evaluate<'s>(expr: &'s Expr, frame: &Scope<'s>, params: &'s Fields) -> Option<Operand<'s>>
    ensures value { IfSome result (λ o. operand o
        ≡ value_of [] (fields params.now) (expression expr.now) (scope_of frame.now)) }
    ensures quiet { IfSome result (λ _. looked [] (fields params.now) (expression expr.now)
        (scope_of frame.now) ≡ []) }
{
    match expr {
        Expr::Null => Some(Operand::Null),
        Expr::Bool(b) => Some(Operand::Bool(*b)),
        Expr::Number(number) => Some(Operand::written(number.as_str())),
        Expr::Text(text) => Some(Operand::Text(text)),
        Expr::Param(name) => Some(Operand::or_null(params.get(name.as_str()))),
        Expr::Word(name) => Some(Operand::or_null(up(frame, 0)).attribute(name)),
        Expr::This => Some(Operand::or_null(up(frame, 0))),
        Expr::Up(level) => Some(Operand::or_null(up(frame, *level))),
        Expr::Round(inner) => evaluate(inner, frame, params),
        Expr::Call { name, args } => call(name.as_str(), args, frame, params),
        Expr::Chain { base, steps } => chain(base, steps, frame, params),
        Expr::Prefix { signs, operand } => prefixed(signs, operand, frame, params),
        Expr::Run { .. } => run(expr, frame, params),
        Expr::Within { .. } => within(expr, frame, params),
        Expr::Between { .. } => between(expr, frame, params),
        Expr::All | Expr::Array(_) | Expr::Object(_) => None,
    }
}

// Signs in front of an operand.
#[cycle(evaluate)]
fn prefixed<'s>(
    signs: &[PreSign],
    inner: &'s Expr,
    frame: &Scope<'s>,
    params: &'s Fields,
) -> Option<Operand<'s>>
    ensures value { IfSome result (λ o. operand o ≡ value_of [] (fields params.now)
        (prefix_node signs.now (expression inner.now)) (scope_of frame.now)) }
    ensures quiet { IfSome result (λ _. looked [] (fields params.now)
        (prefix_node signs.now (expression inner.now)) (scope_of frame.now) ≡ []) }
{
    signed(signs, evaluate(inner, frame, params)?)
}

// The value of an expression that is operators of one level; `None` of every other.
#[cycle(evaluate)]
#[tactic(auto, using(crate::proofs::Sets::nodes), unfolding(cs_syntax::specs::View::expression))]
fn run<'s>(expr: &'s Expr, frame: &Scope<'s>, params: &'s Fields) -> Option<Operand<'s>>
    ensures value { IfSome result (λ o. operand o
        ≡ value_of [] (fields params.now) (expression expr.now) (scope_of frame.now)) }
    ensures quiet { IfSome result (λ _. looked [] (fields params.now) (expression expr.now)
        (scope_of frame.now) ≡ []) }
{
    match expr {
        Expr::Run { first, rest } => {
            let left = evaluate(first, frame, params)?;
            run_from(rest, left, frame, params)
        }
        _ => None,
    }
}

// Operators of one level from the left.
#[cycle(evaluate)]
#[tactic(auto, unfolding(cs_syntax::specs::View::operands))]
fn run_from<'s>(
    list: &'s [(BinSign, Expr)],
    left: Operand<'s>,
    frame: &Scope<'s>,
    params: &'s Fields,
) -> Option<Operand<'s>>
    ensures value { IfSome result (λ o. operand o ≡ run_value [] (fields params.now)
        (operands_of (operands list.now)) (scope_of frame.now) (operand left.entry)) }
    ensures quiet { IfSome result (λ _. run_looked [] (fields params.now)
        (operands_of (operands list.now)) (scope_of frame.now) (operand left.entry) ≡ []) }
{
    let mut here = left;
    for (sign, right) in list {
        here = operate(*sign, here, right, frame, params)?;
    }
    Some(here)
}

// One operator, whose right side is left out where the left one decides.
#[cycle(evaluate)]
#[tactic(auto, using(crate::proofs::Deciding::decided_value))]
fn operate<'s>(
    sign: BinSign,
    left: Operand<'s>,
    right: &'s Expr,
    frame: &Scope<'s>,
    params: &'s Fields,
) -> Option<Operand<'s>>
    ensures value { IfSome result (λ o. operand o ≡ operated sign (operand left.entry)
        (value_of [] (fields params.now) (expression right.now) (scope_of frame.now))) }
    ensures quiet { IfSome result (λ _. (if decides (operator_of sign) (operand left.entry) then []
        else looked [] (fields params.now) (expression right.now) (scope_of frame.now)) ≡ []) }
{
    if decides(sign, left) {
        return Some(left);
    }
    operated(sign, left, evaluate(right, frame, params)?)
}

// A base and its steps, where these are names alone.
#[cycle(evaluate)]
fn chain<'s>(
    base: &'s Expr,
    steps: &'s [Step],
    frame: &Scope<'s>,
    params: &'s Fields,
) -> Option<Operand<'s>>
    ensures value { IfSome result (λ o. operand o ≡ value_of [] (fields params.now)
        (chain_node (expression base.now) (steps_of (map step_of steps.now)))
        (scope_of frame.now)) }
    ensures quiet { IfSome result (λ _. looked [] (fields params.now)
        (chain_node (expression base.now) (steps_of (map step_of steps.now))) (scope_of frame.now)
        ≡ []) }
{
    if gives_array(base) {
        return None;
    }
    follow(steps, evaluate(base, frame, params)?)
}

// A call of a function of values.
#[cycle(evaluate)]
fn call<'s>(
    name: &str,
    args: &'s [Arg],
    frame: &Scope<'s>,
    params: &'s Fields,
) -> Option<Operand<'s>>
    ensures value { IfSome result (λ o. operand o ≡ value_of [] (fields params.now)
        (call_node name.now (arguments_of (map argument_of args.now))) (scope_of frame.now)) }
    ensures quiet { IfSome result (λ _. looked [] (fields params.now)
        (call_node name.now (arguments_of (map argument_of args.now))) (scope_of frame.now) ≡ []) }
{
    let function = function_of(name)?;
    let values = arguments(args, frame, params)?;
    applied(function, values)
}

// The values of a call's arguments.
#[cycle(evaluate)]
fn arguments<'s>(args: &'s [Arg], frame: &Scope<'s>, params: &'s Fields) -> Option<Few<'s>>
    ensures value { IfSome result (λ values. few values ≡ arguments_values [] (fields params.now)
        (arguments_of (map argument_of args.now)) (scope_of frame.now)) }
    ensures quiet { IfSome result (λ _. arguments_looked [] (fields params.now)
        (arguments_of (map argument_of args.now)) (scope_of frame.now) ≡ []) }
{
    let mut values = Few::Zero;
    for arg in args {
        let one = argument(arg, frame, params)?;
        values = values.with(one)?;
    }
    Some(values)
}

// An argument that is no choice of `select`.
#[cycle(evaluate)]
#[tactic(auto, unfolding(cs_syntax::specs::View::argument_of, cs_syntax::specs::View::expression))]
fn argument<'s>(arg: &'s Arg, frame: &Scope<'s>, params: &'s Fields) -> Option<Operand<'s>>
    ensures value { IfSome result (λ o. operand o ≡ argument_value [] (fields params.now)
        (argument_of arg.now) (scope_of frame.now)) }
    ensures quiet { IfSome result (λ _. argument_looked [] (fields params.now)
        (argument_of arg.now) (scope_of frame.now) ≡ []) }
{
    match arg {
        Arg::One(expr) => evaluate(expr, frame, params),
        Arg::When(_condition, _value) => None,
    }
}

// The value of an expression that is a test of membership; `None` of every other.
#[cycle(evaluate)]
#[tactic(auto, using(crate::proofs::Sets::nodes), unfolding(cs_syntax::specs::View::expression))]
fn within<'s>(expr: &'s Expr, frame: &Scope<'s>, params: &'s Fields) -> Option<Operand<'s>>
    ensures value { IfSome result (λ o. operand o
        ≡ value_of [] (fields params.now) (expression expr.now) (scope_of frame.now)) }
    ensures quiet { IfSome result (λ _. looked [] (fields params.now) (expression expr.now)
        (scope_of frame.now) ≡ []) }
{
    match expr {
        Expr::Within { left, right } => {
            let here = evaluate(left, frame, params)?;
            is_in(here, right, frame, params)
        }
        _ => None,
    }
}

// The value of an expression that is a test of an interval; `None` of every other.
#[cycle(evaluate)]
#[tactic(auto, using(crate::proofs::Sets::nodes), unfolding(cs_syntax::specs::View::expression))]
fn between<'s>(expr: &'s Expr, frame: &Scope<'s>, params: &'s Fields) -> Option<Operand<'s>>
    ensures value { IfSome result (λ o. operand o
        ≡ value_of [] (fields params.now) (expression expr.now) (scope_of frame.now)) }
    ensures quiet { IfSome result (λ _. looked [] (fields params.now) (expression expr.now)
        (scope_of frame.now) ≡ []) }
{
    match expr {
        Expr::Between {
            left,
            from,
            to,
            closed,
        } => {
            let here = evaluate(left, frame, params)?;
            let low = evaluate(from, frame, params)?;
            let high = evaluate(to, frame, params)?;
            Some(Operand::said(here.is_between(low, high, *closed)))
        }
        _ => None,
    }
}

// `left in right`, where the right side may be a call of `path` or an array literal.
#[cycle(evaluate)]
#[tactic(auto, using(crate::proofs::Sets::paths))]
fn is_in<'s>(
    left: Operand<'s>,
    right: &'s Expr,
    frame: &Scope<'s>,
    params: &'s Fields,
) -> Option<Operand<'s>>
    ensures value { IfSome result (λ o. operand o ≡ in_list_or_path (operand left.entry)
        (path_pattern [] (fields params.now) (expression right.now) (scope_of frame.now))
        (value_of [] (fields params.now) (expression right.now) (scope_of frame.now))) }
    ensures quiet { IfSome result (λ _. looked [] (fields params.now) (expression right.now)
        (scope_of frame.now) ≡ []) }
{
    if is_path_call(right) {
        return matched(left, right, frame, params);
    }
    among(left, right, frame, params)
}

// Whether the value matches the pattern that the right side, a call of `path`, has.
#[cycle(evaluate)]
#[tactic(auto, using(crate::proofs::Sets::nodes), unfolding(cs_syntax::specs::View::expression))]
fn matched<'s>(
    left: Operand<'s>,
    right: &'s Expr,
    frame: &Scope<'s>,
    params: &'s Fields,
) -> Option<Operand<'s>>
    ensures value { IfSome result (λ o. operand o ≡ in_path (operand left.entry)
        (sole (arguments_values [] (fields params.now) (arguments_in (expression right.now))
        (scope_of frame.now)))) }
    ensures quiet { IfSome result (λ _. arguments_looked [] (fields params.now)
        (arguments_in (expression right.now)) (scope_of frame.now) ≡ []) }
{
    match right {
        Expr::Call { args, .. } => pattern_matches(left, args, frame, params),
        _ => None,
    }
}

// Whether the value matches the one pattern among the arguments.
#[cycle(evaluate)]
fn pattern_matches<'s>(
    left: Operand<'s>,
    args: &'s [Arg],
    frame: &Scope<'s>,
    params: &'s Fields,
) -> Option<Operand<'s>>
    ensures value { IfSome result (λ o. operand o ≡ in_path (operand left.entry)
        (sole (arguments_values [] (fields params.now) (arguments_of (map argument_of args.now))
        (scope_of frame.now)))) }
    ensures quiet { IfSome result (λ _. arguments_looked [] (fields params.now)
        (arguments_of (map argument_of args.now)) (scope_of frame.now) ≡ []) }
{
    let pattern = arguments(args, frame, params)?.sole()?;
    Some(Operand::said(left.matches_path(pattern)))
}

// Whether the value is among the elements of a list, which may be written as one.
#[cycle(evaluate)]
#[tactic(auto, unfolding(cs_syntax::specs::View::expression))]
fn among<'s>(
    left: Operand<'s>,
    right: &'s Expr,
    frame: &Scope<'s>,
    params: &'s Fields,
) -> Option<Operand<'s>>
    ensures value { IfSome result (λ o. operand o ≡ within_list (operand left.entry)
        (value_of [] (fields params.now) (expression right.now) (scope_of frame.now))) }
    ensures quiet { IfSome result (λ _. looked [] (fields params.now) (expression right.now)
        (scope_of frame.now) ≡ []) }
{
    match right {
        Expr::Array(list) => Some(Operand::Bool(among_elements(left, list, frame, params)?)),
        _ => {
            let list = evaluate(right, frame, params)?;
            Some(Operand::said(left.is_among(list)))
        }
    }
}

// Whether an element of an array literal is equal to the value. Each is evaluated.
#[cycle(evaluate)]
fn among_elements<'s>(
    left: Operand<'s>,
    list: &'s [Elem],
    frame: &Scope<'s>,
    params: &'s Fields,
) -> Option<bool>
    ensures value { IfSome result (λ b. b ≡ list_any (λ t. equal t (operand left.entry))
        (elements_values [] (fields params.now) (elements_of (map element_of list.now))
        (scope_of frame.now))) }
    ensures quiet { IfSome result (λ _. elements_looked [] (fields params.now)
        (elements_of (map element_of list.now)) (scope_of frame.now) ≡ []) }
{
    let mut found = false;
    for elem in list {
        let one = element(elem, frame, params)?;
        found = found || one.is_equal(left);
    }
    Some(found)
}

// An element that is no spread.
#[cycle(evaluate)]
#[tactic(auto, unfolding(cs_syntax::specs::View::element_of, cs_syntax::specs::View::expression))]
fn element<'s>(elem: &'s Elem, frame: &Scope<'s>, params: &'s Fields) -> Option<Operand<'s>>
    ensures value { IfSome result (λ o. element_values [] (fields params.now) (element_of elem.now)
        (scope_of frame.now) ≡ operand o ∷ []) }
    ensures quiet { IfSome result (λ _. element_looked [] (fields params.now) (element_of elem.now)
        (scope_of frame.now) ≡ []) }
{
    match elem {
        Elem::One(expr) => evaluate(expr, frame, params),
        Elem::Spread(_list) => None,
    }
}
