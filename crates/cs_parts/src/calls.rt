//! What a name calls, and the calls of `path`.
ghost use Rattle.std.specs.Prelude.{◌≡◌, map, option_map};
ghost use Rattle.cs_syntax.specs.Expression.{arguments_of};
ghost use Rattle.cs_syntax.specs.View.{argument_of, expression};
ghost use Rattle.cs_parts.specs.Callees.{meant, path_arguments};
ghost use Rattle.cs_meaning.specs.Operators.{callee};

use cs_func::{Function, named};
use cs_syntax::{Arg, Expr, is_path, without_global};

/// How a call finds its value.
#[derive(Clone, Copy)]
pub enum Callee {
    /// `coalesce`
    Coalesce,
    /// `select`
    Select,
    /// `references`
    References,
    /// The function of its arguments' values that has the name, if there is one.
    Values(Option<Function>),
}

/// What a name calls, with `global::` in front or not.
pub fn callee_of(name: &str) -> Callee
    ensures { meant result ≡ callee name.now }
{
    let bare = without_global(name);
    if bare == "coalesce".as_bytes() {
        Callee::Coalesce
    } else if bare == "select".as_bytes() {
        Callee::Select
    } else if bare == "references".as_bytes() {
        Callee::References
    } else {
        Callee::Values(named(name))
    }
}

/// The arguments of a call of `path`: `None` exactly where the expression is no such call.
#[tactic(auto, using(crate::proofs::Sets::call), unfolding(cs_syntax::specs::View::expression))]
pub fn path_arguments(expr: &Expr) -> Option<&[Arg]>
    ensures { option_map (λ xs. arguments_of (map argument_of xs.now)) result
        ≡ path_arguments (expression expr.now) }
{
    match expr {
        Expr::Call { name, args } if is_path(name.as_str()) => Some(args.as_slice()),
        _ => None,
    }
}
