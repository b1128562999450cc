//! The key of a filter: the first by kind of those that its conjuncts give.
ghost use Rattle.std.specs.Prelude.{◌≡◌, IfOk};
ghost use Rattle.cs_plan.specs.Filters.{first_by_kind, key_in};
ghost use Rattle.cs_plan.specs.Picked.{rank};
ghost use Rattle.cs_syntax.specs.View.{expression};
ghost use Rattle.cs_value.specs.View.{fields};
ghost use Rattle.cs_view.specs.Scopes.{scope_of};

use crate::given::filter_keys;
use cs_syntax::Expr;
use cs_value::{Fields, NoMemory};
use cs_view::{Key, Scope};
use std::alloc::Global;

// The place of the key's kind in the order in which kinds count.
fn rank(key: &Key) -> u8
    ensures { result ≡ rank key.now }
{
    match key {
        Key::Id(_) => 0,
        Key::Ref(_) => 1,
        Key::Path(_, _) => 2,
        Key::Elem(_, _) => 3,
        Key::All => 4,
    }
}

/// Of the keys that a filter gives the one by which it is looked up: the leftmost of the first kind
/// that is among them, in the order id, reference, value at a path, element of a list; `All` where
/// there is none. It takes no memory, and drops the others.
#[tactic(auto, using(crate::proofs::Choices::best_is_first))]
pub fn first_by_kind(keys: Vec<Key>) -> Key
    ensures { result ≡ first_by_kind keys.items }
{
    let mut best = Key::All;
    for key in keys {
        if rank(&key) < rank(&best) {
            best = key;
        }
    }
    best
}

/// The key of a filter, in the scope in which its chain stands: the leftmost of the first kind that
/// some conjunct gives, in the order id, reference, value at a path, element of a list; `All` where
/// none gives one. `NoMemory` where the allocator has no room for the keys of the conjuncts.
pub fn choose<'f>(
    alloc: Global,
    filter: &'f Expr,
    scope: &Scope<'f>,
    params: &'f Fields,
) -> Result<Key, NoMemory>
    ensures { IfOk result (λ k. k
        ≡ key_in (expression filter.now) (scope_of scope.now) (fields params.now)) }
{
    Ok(first_by_kind(filter_keys(alloc, filter, scope, params)?))
}
