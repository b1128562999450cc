//! Queries: expressions without a fault.
ghost use Rattle.std.specs.Prelude.{◌≡◌, None, true};
ghost use Rattle.cs_value.specs.Tree.{null as null_tree};
ghost use Rattle.cs_value.specs.View.{tree};
ghost use Rattle.cs_syntax.specs.Faults.{fault};
ghost use Rattle.cs_value.specs.Words.{is_null};
ghost use Rattle.cs_syntax.specs.View.{expression};

use crate::tree::Expr;
use cs_value::Val;

/// A query: an expression that has no fault. Contracts speak of it by its expression.
///
/// It keeps the null that `@` is outside of all scopes, so that an evaluation can lend it for
/// as long as it lends parts of the query.
#[derive(Drop)]
pub struct Query {
    expr: Expr,
    null: Val,
    pub ghost has_no_fault: { fault (expression expr) ≡ None },
    pub ghost keeps_null: { is_null (tree null) ≡ true },
}

impl Query {
    ghost use Rattle.cs_syntax.specs.Queries.{expression_of};

    /// The query of the expression, which has no fault. The tree is moved and not copied.
    #[tactic(auto, using(crate::proofs::Nulls::tree_of_null))]
    pub fn of(expr: Expr) -> Query
        requires { fault (expression expr) ≡ None }
        ensures { expression_of result ≡ expression expr }
    {
        Query {
            expr,
            null: Val::Null,
        }
    }

    /// The tree of the query, borrowed.
    pub fn expr(&self) -> &Expr
        ensures kept { expression result.now ≡ expression_of self.now }
        ensures has_no_fault { fault (expression result.now) ≡ None }
    {
        &self.expr
    }

    /// What `@` is in the scope of the whole query: null.
    #[tactic(auto, using(crate::proofs::Nulls::null_then))]
    pub fn null(&self) -> &Val
        ensures { tree result.now ≡ null_tree }
    {
        &self.null
    }
}
