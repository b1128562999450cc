//! The truth of conditions over one document.
ghost use Rattle.std.specs.Prelude.{◌≡◌, map};
ghost use Rattle.cs_syntax.specs.Expression.{arguments_of, elements_of, operands_of};
ghost use Rattle.cs_syntax.specs.View.{expression, argument_of, element_of, operands};
ghost use Rattle.cs_value.specs.View.{tree, fields};
ghost use Rattle.cs_parts.specs.Callees.{meant};
ghost use Rattle.cs_operand.specs.Operands.{operand};
ghost use Rattle.cs_plain.specs.Truths.{first_value, rest_of, some_referred, some_equal, contained, tested, comparison, compared, junction, decides, is_joining, flipped, condition_truth, run_truth};

use crate::references::refers_to;
use crate::values::{argument, one, operand};
use cs_func::Function;
use cs_operand::Operand;
use cs_ops::{both, either, opposite};
use cs_parts::{Callee, callee_of};
use cs_syntax::{Arg, BinSign, Elem, Expr, PreSign, is_path};
use cs_value::{Fields, Val};

fn junction(sign: BinSign, a: Option<bool>, b: Option<bool>) -> Option<bool>
    ensures { result ≡ junction sign a b }
{
    match sign {
        BinSign::And => both(a, b),
        BinSign::Or => either(a, b),
        _ => None,
    }
}

// Whether the left side alone decides.
fn decides(sign: BinSign, left: Option<bool>) -> bool
    ensures { result ≡ decides sign left }
{
    match (sign, left) {
        (BinSign::And, Some(false)) => true,
        (BinSign::Or, Some(true)) => true,
        _ => false,
    }
}

fn comparison(sign: BinSign, a: Operand<'_>, b: Operand<'_>) -> Option<bool>
    ensures { result ≡ comparison sign (operand a.entry) (operand b.entry) }
{
    match sign {
        BinSign::Eq => Some(a.is_equal(b)),
        BinSign::Ne => Some(!a.is_equal(b)),
        BinSign::Lt => Some(a.compared(b)?.is_lt()),
        BinSign::Le => Some(a.compared(b)?.is_le()),
        BinSign::Gt => Some(a.compared(b)?.is_gt()),
        BinSign::Ge => Some(a.compared(b)?.is_ge()),
        _ => None,
    }
}

#[tactic(auto, unfolding(cs_syntax::specs::View::operands))]
fn compared(rest: &[(BinSign, Expr)], params: &Fields, doc: &Val, a: Operand<'_>) -> Option<bool>
    ensures { result ≡ compared (fields params.now) (tree doc.now)
        (operands_of (operands rest.now)) (operand a.entry) }
{
    let (first, others) = rest.split_first()?;
    if let Some(_) = others.split_first() {
        return None;
    }
    comparison(first.0, a, operand(&first.1, params, doc))
}

#[tactic(auto, unfolding(cs_syntax::specs::View::operands))]
fn is_joining(rest: &[(BinSign, Expr)]) -> bool
    ensures { result ≡ is_joining (operands_of (operands rest.now)) }
{
    match rest.split_first() {
        None => true,
        Some((first, _)) => match first.0 {
            BinSign::And | BinSign::Or => true,
            _ => false,
        },
    }
}

fn flipped(signs: &[PreSign], a: Option<bool>) -> Option<bool>
    ensures { result ≡ flipped signs.now a }
{
    let mut truth = a;
    let mut left = signs;
    while let Some((sign, later)) = left.split_first() {
        match sign {
            PreSign::Not => truth = opposite(truth),
            _ => return None,
        }
        left = later;
    }
    truth
}

fn first<'v>(args: &'v [Arg], params: &'v Fields, doc: &'v Val) -> Operand<'v>
    ensures { operand result ≡ first_value (fields params.now) (tree doc.now)
        (arguments_of (map argument_of args.now)) }
{
    match args.split_first() {
        Some((arg, _)) => argument(arg, params, doc),
        None => Operand::Null,
    }
}

// What stands behind the first argument.
fn rest(args: &[Arg]) -> &[Arg]
    ensures { arguments_of (map argument_of result.now)
        ≡ rest_of (arguments_of (map argument_of args.now)) }
{
    match args.split_first() {
        Some((_, others)) => others,
        None => args,
    }
}

fn some_referred(args: &[Arg], params: &Fields, doc: &Val) -> bool
    ensures { result ≡ some_referred (fields params.now) (tree doc.now)
        (arguments_of (map argument_of args.now)) }
{
    let mut left = args;
    while let Some((arg, later)) = left.split_first() {
        if refers_to(doc, argument(arg, params, doc)) {
            return true;
        }
        left = later;
    }
    false
}

#[tactic(auto, unfolding(cs_syntax::specs::View::element_of, cs_syntax::specs::View::expression))]
fn some_equal(elements: &[Elem], params: &Fields, doc: &Val, a: Operand<'_>) -> bool
    ensures { result ≡ some_equal (fields params.now) (tree doc.now)
        (elements_of (map element_of elements.now)) (operand a.entry) }
{
    let mut left = elements;
    while let Some((element, later)) = left.split_first() {
        if let Elem::One(expr) = element {
            if operand(expr, params, doc).is_equal(a) {
                return true;
            }
        }
        left = later;
    }
    false
}

// Whether the value is in what stands on the right of `in`.
#[tactic(auto, using(crate::proofs::Sets::array), unfolding(cs_syntax::specs::View::expression))]
fn contained(right: &Expr, params: &Fields, doc: &Val, a: Operand<'_>) -> Option<bool>
    ensures { result ≡ contained (fields params.now) (tree doc.now) (expression right.now)
        (operand a.entry) }
{
    match right {
        Expr::Array(elements) => Some(some_equal(elements, params, doc, a)),
        Expr::Call { name, args } => {
            if is_path(name.as_str()) {
                a.matches_path(one(args, params, doc))
            } else {
                a.is_among(operand(right, params, doc))
            }
        }
        _ => a.is_among(operand(right, params, doc)),
    }
}

// The truth of a call.
fn tested(callee: Callee, args: &[Arg], params: &Fields, doc: &Val) -> Option<bool>
    ensures { result ≡ tested (meant callee) (fields params.now) (tree doc.now)
        (arguments_of (map argument_of args.now)) }
{
    match callee {
        Callee::Values(Some(Function::Defined)) => Some(one(args, params, doc).is_defined()),
        Callee::Values(Some(Function::StartsWith)) => {
            first(args, params, doc).begins(one(rest(args), params, doc))
        }
        Callee::References => Some(some_referred(args, params, doc)),
        _ => None,
    }
}

/// The truth of a condition over the document.
#[cycle(condition)]
#[tactic(auto, using(crate::proofs::Sets::run), unfolding(cs_syntax::specs::View::expression))]
pub(crate) fn condition(expr: &Expr, params: &Fields, doc: &Val) -> Option<bool>
    ensures { result ≡ condition_truth (fields params.now) (tree doc.now) (expression expr.now) }
{
    match expr {
        Expr::Round(inner) => condition(inner, params, doc),
        Expr::Run { first, rest } => {
            if is_joining(rest) {
                run(condition(first, params, doc), rest, params, doc)
            } else {
                compared(rest, params, doc, operand(first, params, doc))
            }
        }
        Expr::Prefix { signs, operand } => flipped(signs, condition(operand, params, doc)),
        Expr::Within { left, right } => contained(right, params, doc, operand(left, params, doc)),
        Expr::Between {
            left,
            from,
            to,
            closed,
        } => operand(left, params, doc).is_between(
            operand(from, params, doc),
            operand(to, params, doc),
            *closed,
        ),
        Expr::Call { name, args } => tested(callee_of(name.as_str()), args, params, doc),
        _ => operand(expr, params, doc).truth(),
    }
}

// The truth of a run of `&&` or `||`.
#[cycle(condition)]
#[tactic(auto, unfolding(cs_syntax::specs::View::operands))]
fn run(first: Option<bool>, rest: &[(BinSign, Expr)], params: &Fields, doc: &Val) -> Option<bool>
    ensures { result ≡ run_truth (fields params.now) (tree doc.now)
        (operands_of (operands rest.now)) first }
{
    let mut truth = first;
    for (sign, right) in rest {
        truth = join(*sign, truth, right, params, doc);
    }
    truth
}

// One `&&` or `||`, whose right side is left out where the left one decides.
#[cycle(condition)]
#[tactic(auto, using(crate::proofs::Parts::decided))]
fn join(sign: BinSign, left: Option<bool>, right: &Expr, params: &Fields, doc: &Val) -> Option<bool>
    ensures { result ≡ junction sign left (condition_truth (fields params.now) (tree doc.now)
        (expression right.now)) }
{
    if decides(sign, left) {
        return left;
    }
    junction(sign, left, condition(right, params, doc))
}
