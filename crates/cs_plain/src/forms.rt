//! Which expressions are operands and conditions.
ghost use Rattle.std.specs.Prelude.{◌≡◌, ◌&&◌, map};
ghost use Rattle.cs_syntax.specs.Expression.{arguments_of, elements_of, operands_of};
ghost use Rattle.cs_syntax.specs.View.{expression, argument_of, element_of, operands};
ghost use Rattle.cs_parts.specs.Callees.{meant};
ghost use Rattle.cs_plain.specs.Forms.{argument_is_operand, element_is_operand};
ghost use Rattle.cs_plain.specs.Plain.{is_word, is_negative, is_measure, is_operand, is_one, are_operands, are_some, are_two, is_test, are_elements, are_some_elements, is_container, is_comparison, is_compared, is_junction, all_not, is_plain, are_junctions};

use cs_func::Function;
use cs_parts::{Callee, callee_of};
use cs_plan::{are_names, negative_of};
use cs_syntax::{Arg, BinSign, Elem, Expr, PreSign, is_path};

#[tactic(auto, unfolding(cs_syntax::specs::View::expression))]
fn is_word(expr: &Expr) -> bool
    ensures { result ≡ is_word (expression expr.now) }
{
    matches!(expr, Expr::Word(_))
}

fn is_measure(callee: Callee) -> bool
    ensures { result ≡ is_measure (meant callee) }
{
    match callee {
        Callee::Values(Some(Function::Count)) => true,
        Callee::Values(Some(Function::Length)) => true,
        _ => false,
    }
}

#[tactic(auto, using(crate::proofs::Shapes::negative_number))]
fn is_negative(signs: &[PreSign], operand: &Expr) -> bool
    ensures { result ≡ is_negative signs.now (expression operand.now) }
{
    negative_of(signs, operand).is_some()
}

/// Whether the expression is an operand.
#[cycle(is_operand)]
#[tactic(auto, using(crate::proofs::Sets::chain), unfolding(cs_syntax::specs::View::expression))]
fn is_operand(expr: &Expr) -> bool
    ensures { result ≡ is_operand (expression expr.now) }
{
    match expr {
        Expr::Null => true,
        Expr::Bool(_) => true,
        Expr::Number(_) => true,
        Expr::Text(_) => true,
        Expr::Param(_) => true,
        Expr::Word(_) => true,
        Expr::This => true,
        Expr::Chain { base, steps } => is_word(base) && are_names(steps),
        Expr::Prefix { signs, operand } => is_negative(signs, operand),
        Expr::Call { name, args } => is_measure(callee_of(name.as_str())) && is_one(args),
        _ => false,
    }
}

// One argument alone, which is an operand.
#[cycle(is_operand)]
fn is_one(args: &[Arg]) -> bool
    ensures { result ≡ is_one (arguments_of (map argument_of args.now)) }
{
    let Some((first, others)) = args.split_first() else {
        return false;
    };
    if others.len() > 0 {
        return false;
    }
    argument_is_operand(first)
}

#[cycle(is_operand)]
#[tactic(auto, unfolding(cs_syntax::specs::View::argument_of, cs_syntax::specs::View::expression))]
fn argument_is_operand(arg: &Arg) -> bool
    ensures { result ≡ argument_is_operand (argument_of arg.now) }
{
    match arg {
        Arg::One(expr) => is_operand(expr),
        Arg::When(_, _) => false,
    }
}

#[tactic(auto, using(crate::proofs::Shapes::operands_more))]
fn are_operands(args: &[Arg]) -> bool
    ensures { result ≡ are_operands (arguments_of (map argument_of args.now)) }
{
    for arg in args {
        if !argument_is_operand(arg) {
            return false;
        }
    }
    true
}

fn are_some(args: &[Arg]) -> bool
    ensures { result ≡ are_some (arguments_of (map argument_of args.now)) }
{
    match args.split_first() {
        Some(_) => are_operands(args),
        None => false,
    }
}

#[tactic(auto, using(crate::proofs::Shapes::two, crate::proofs::Shapes::not_two))]
fn are_two(args: &[Arg]) -> bool
    ensures { result ≡ are_two (arguments_of (map argument_of args.now)) }
{
    if args.len() == 2 {
        are_operands(args)
    } else {
        false
    }
}

// A call that may stand as a condition.
fn is_test(callee: Callee, args: &[Arg]) -> bool
    ensures { result ≡ is_test (meant callee) (arguments_of (map argument_of args.now)) }
{
    match callee {
        Callee::Values(Some(Function::Defined)) => is_one(args),
        Callee::Values(Some(Function::StartsWith)) => are_two(args),
        Callee::Values(Some(Function::Count)) => is_one(args),
        Callee::Values(Some(Function::Length)) => is_one(args),
        Callee::References => are_some(args),
        _ => false,
    }
}

#[tactic(auto, unfolding(cs_syntax::specs::View::element_of, cs_syntax::specs::View::expression))]
fn element_is_operand(elem: &Elem) -> bool
    ensures { result ≡ element_is_operand (element_of elem.now) }
{
    match elem {
        Elem::One(expr) => is_operand(expr),
        Elem::Spread(_) => false,
    }
}

#[tactic(auto, using(crate::proofs::Shapes::elements_more))]
fn are_elements(elements: &[Elem]) -> bool
    ensures { result ≡ are_elements (elements_of (map element_of elements.now)) }
{
    for elem in elements {
        if !element_is_operand(elem) {
            return false;
        }
    }
    true
}

fn are_some_elements(elements: &[Elem]) -> bool
    ensures { result ≡ are_some_elements (elements_of (map element_of elements.now)) }
{
    match elements.split_first() {
        Some(_) => are_elements(elements),
        None => false,
    }
}

// What may stand on the right of `in`, ranges aside.
#[tactic(auto, using(crate::proofs::Sets::array), unfolding(cs_syntax::specs::View::expression))]
fn is_container(expr: &Expr) -> bool
    ensures { result ≡ is_container (expression expr.now) }
{
    match expr {
        Expr::Array(elements) => are_some_elements(elements),
        Expr::Call { name, args } => {
            if is_path(name.as_str()) {
                is_one(args)
            } else {
                is_operand(expr)
            }
        }
        _ => is_operand(expr),
    }
}

fn is_comparison(sign: BinSign) -> bool
    ensures { result ≡ is_comparison sign }
{
    match sign {
        BinSign::Eq | BinSign::Ne => true,
        BinSign::Lt | BinSign::Le | BinSign::Gt | BinSign::Ge => true,
        _ => false,
    }
}

// One comparison with an operand.
#[tactic(auto, unfolding(cs_syntax::specs::View::operands))]
fn is_compared(rest: &[(BinSign, Expr)]) -> bool
    ensures { result ≡ is_compared (operands_of (operands rest.now)) }
{
    let Some((first, others)) = rest.split_first() else {
        return false;
    };
    if let Some(_) = others.split_first() {
        return false;
    }
    is_comparison(first.0) && is_operand(&first.1)
}

fn is_junction(sign: BinSign) -> bool
    ensures { result ≡ is_junction sign }
{
    match sign {
        BinSign::And | BinSign::Or => true,
        _ => false,
    }
}

fn all_not(signs: &[PreSign]) -> bool
    ensures { result ≡ all_not signs.now }
{
    let mut left = signs;
    while let Some((sign, later)) = left.split_first() {
        match sign {
            PreSign::Not => left = later,
            _ => return false,
        }
    }
    true
}

/// Whether the expression is a condition.
#[cycle(is_plain)]
#[tactic(auto, using(crate::proofs::Sets::run), unfolding(cs_syntax::specs::View::expression))]
pub(crate) fn is_plain(expr: &Expr) -> bool
    ensures { result ≡ is_plain (expression expr.now) }
{
    match expr {
        Expr::Round(inner) => is_plain(inner),
        Expr::Run { first, rest } => {
            (is_plain(first) && are_junctions(rest)) || (is_operand(first) && is_compared(rest))
        }
        Expr::Prefix { signs, operand } => {
            (all_not(signs) && is_plain(operand)) || is_negative(signs, operand)
        }
        Expr::Within { left, right } => is_operand(left) && is_container(right),
        Expr::Between { left, from, to, .. } => {
            is_operand(left) && (is_operand(from) && is_operand(to))
        }
        Expr::Call { name, args } => is_test(callee_of(name.as_str()), args),
        _ => is_operand(expr),
    }
}

// Each sign is `&&` or `||`, and what stands behind it a condition.
#[cycle(is_plain)]
#[tactic(auto, unfolding(cs_syntax::specs::View::operands))]
fn are_junctions(rest: &[(BinSign, Expr)]) -> bool
    ensures { result ≡ are_junctions (operands_of (operands rest.now)) }
{
    for (sign, right) in rest {
        if !is_junction_of(*sign, right) {
            return false;
        }
    }
    true
}

#[cycle(is_plain)]
fn is_junction_of(sign: BinSign, right: &Expr) -> bool
    ensures { result ≡ (is_junction sign && is_plain (expression right.now)) }
{
    is_junction(sign) && is_plain(right)
}
