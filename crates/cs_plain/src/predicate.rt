//! Plain predicates: queries whose filter a listener may have.
ghost use Rattle.std.specs.Prelude.{◌≡◌, true, is_some, Some, None, IfOk, IfErr, OnErr};
ghost use Rattle.cs_value.specs.Tree.{null as null_tree};
ghost use Rattle.cs_value.specs.View.{tree};
ghost use Rattle.cs_syntax.specs.Queries.{expression_of};
ghost use Rattle.cs_syntax.specs.View.{expression};
ghost use Rattle.cs_plain.specs.Plain.{listened_filter};

use crate::listened::is_listened;
use cs_syntax::{Expr, Query};
use cs_value::Val;

/// A plain predicate: the filter that a listener's query stands for, which is tested without
/// memory. Contracts speak of it by this filter.
#[derive(Drop)]
pub struct Plain {
    query: Query,
    pub ghost is_plain: { is_some (listened_filter (expression_of query)) ≡ true },
}

impl Plain {
    ghost use Rattle.cs_plain.specs.Predicates.{filter, own_query};

    /// The predicate of a query: `*`, which stands for `true`, or `*` and one filter whose
    /// condition is plain. Any other query is handed back, and no other. It takes no memory.
    #[tactic(auto, using(crate::proofs::Tested::some_filter, crate::proofs::Tested::no_filter))]
    pub fn from_query(query: Query) -> Result<Plain, Query>
        ensures plain { IfOk result (λ plain. listened_filter (expression_of query)
            ≡ Some (filter plain)) }
        ensures other { OnErr result (listened_filter (expression_of query) ≡ None) }
        ensures back { IfErr result (λ back. back ≡ query) }
    {
        if is_listened(query.expr()) {
            Ok(Plain { query })
        } else {
            Err(query)
        }
    }

    /// The tree of the query that it came from.
    pub(crate) fn expr(&self) -> &Expr
        ensures kept { expression result.now ≡ own_query self.now }
        ensures plain { is_some (listened_filter (own_query self.now)) ≡ true }
    {
        self.query.expr()
    }
    /// What `@` is in the scope of the whole query: null.
    pub(crate) fn null(&self) -> &Val
        ensures { tree result.now ≡ null_tree }
    {
        self.query.null()
    }
}
