//! The key that one conjunct of a filter gives.
ghost use Rattle.std.specs.Prelude.{◌≡◌, map, option_map};
ghost use Rattle.cs_plan.specs.Constants.{constant};
ghost use Rattle.cs_plan.specs.Filters.{path_of, equals_key, of_both, equality_key, element_key, reference_key, conjunct_key};
ghost use Rattle.cs_plan.specs.Parts.{sole_argument, sole_equal};
ghost use Rattle.cs_plan.specs.Lent.{key_lent, scalar_lent};
ghost use Rattle.cs_syntax.specs.Expression.{arguments_of, operands_of};
ghost use Rattle.cs_syntax.specs.View.{expression, argument_of, operands};
ghost use Rattle.cs_value.specs.View.{fields};
ghost use Rattle.cs_view.specs.Scopes.{scope_of};

use crate::constants::constant;
use crate::lent::{LentKey, LentScalar};
use crate::paths::{LentNames, path_of};
use cs_syntax::{Arg, BinSign, Expr, without_global};
use cs_value::Fields;
use cs_view::Scope;

fn equals_key<'f>(names: LentNames<'f>, scalar: LentScalar<'f>) -> LentKey<'f>
    ensures { key_lent result ≡ equals_key names.entry (scalar_lent scalar.entry) }
{
    match scalar {
        LentScalar::Text(text) => {
            if names.is_id() {
                LentKey::Id(text)
            } else {
                LentKey::Path(names, scalar)
            }
        }
        _ => LentKey::Path(names, scalar),
    }
}

// The key of a path and a constant.
fn path_equals<'f>(
    path: &'f Expr,
    value: &'f Expr,
    scope: &Scope<'f>,
    params: &'f Fields,
) -> Option<LentKey<'f>>
    ensures { option_map key_lent result
        ≡ of_both equals_key (path_of (expression path.now))
        (constant (expression value.now) (scope_of scope.now) (fields params.now)) }
{
    let names = path_of(path)?;
    let scalar = constant(value, scope, params)?;
    Some(equals_key(names, scalar))
}

// The key of `p == c` and of `c == p`.
fn equality<'f>(
    left: &'f Expr,
    right: &'f Expr,
    scope: &Scope<'f>,
    params: &'f Fields,
) -> Option<LentKey<'f>>
    ensures { option_map key_lent result
        ≡ equality_key (expression left.now) (expression right.now)
        (scope_of scope.now) (fields params.now) }
{
    match path_equals(left, right, scope, params) {
        Some(key) => Some(key),
        None => path_equals(right, left, scope, params),
    }
}

// The key of `c in p`.
fn element<'f>(
    left: &'f Expr,
    right: &'f Expr,
    scope: &Scope<'f>,
    params: &'f Fields,
) -> Option<LentKey<'f>>
    ensures { option_map key_lent result
        ≡ element_key (expression left.now) (expression right.now)
        (scope_of scope.now) (fields params.now) }
{
    let names = path_of(right)?;
    let scalar = constant(left, scope, params)?;
    Some(LentKey::Elem(names, scalar))
}

// The one argument of a call, where it has one alone and without `=>`.
#[tactic(auto, unfolding(cs_syntax::specs::View::argument_of, cs_syntax::specs::View::expression))]
fn sole_argument(args: &[Arg]) -> Option<&Expr>
    ensures { option_map (λ e. expression e.now) result
        ≡ sole_argument (arguments_of (map argument_of args.now)) }
{
    let (first, others) = args.split_first()?;
    if let Some(_) = others.split_first() {
        return None;
    }
    match first {
        Arg::One(expr) => Some(expr),
        Arg::When(_, _) => None,
    }
}

// The key of `references(c)`.
#[tactic(auto, using(crate::proofs::ConstantParts::reference_sole))]
fn reference<'f>(
    name: &str,
    args: &'f [Arg],
    scope: &Scope<'f>,
    params: &'f Fields,
) -> Option<LentKey<'f>>
    ensures { option_map key_lent result
        ≡ reference_key name.now (arguments_of (map argument_of args.now))
        (scope_of scope.now) (fields params.now) }
{
    let target = sole_argument(args)?;
    if without_global(name) != "references".as_bytes() {
        return None;
    }
    match constant(target, scope, params)? {
        LentScalar::Text(text) => Some(LentKey::Ref(text)),
        _ => None,
    }
}

// The right side, where the operators are one `==` alone.
#[tactic(auto, unfolding(cs_syntax::specs::View::operands))]
fn sole_equal(rest: &[(BinSign, Expr)]) -> Option<&Expr>
    ensures { option_map (λ e. expression e.now) result
        ≡ sole_equal (operands_of (operands rest.now)) }
{
    let (first, others) = rest.split_first()?;
    if let Some(_) = others.split_first() {
        return None;
    }
    match first.0 {
        BinSign::Eq => Some(&first.1),
        _ => None,
    }
}

/// The key that a conjunct gives, if it gives one.
#[tactic(auto, using(crate::proofs::Sets::conjunct), unfolding(cs_syntax::specs::View::expression))]
pub(crate) fn conjunct<'f>(
    expr: &'f Expr,
    scope: &Scope<'f>,
    params: &'f Fields,
) -> Option<LentKey<'f>>
    ensures { option_map key_lent result
        ≡ conjunct_key (expression expr.now) (scope_of scope.now) (fields params.now) }
{
    match expr {
        Expr::Run { first, rest } => equality(first, sole_equal(rest)?, scope, params),
        Expr::Within { left, right } => element(left, right, scope, params),
        Expr::Call { name, args } => reference(name.as_str(), args, scope, params),
        _ => None,
    }
}
