//! Which keys of an order are descending.
ghost use Rattle.std.specs.Prelude.{◌≡◌, IfOk, map};
ghost use Rattle.cs_syntax.specs.Expression.{keys_of};
ghost use Rattle.cs_syntax.specs.View.{order_key_of};
ghost use Rattle.cs_meaning.specs.Ordered.{directions};

use crate::push;
use cs_syntax::OrderKey;
use cs_value::NoMemory;
use std::alloc::Global;

/// Which keys are descending.
#[tactic(auto, using(cs_syntax::proofs::Views::key_seen))]
pub fn directions(alloc: Global, order: &[OrderKey]) -> Result<Vec<bool>, NoMemory>
    ensures { IfOk result (λ v. v.items ≡ directions (keys_of (map order_key_of order.now))) }
{
    let mut out = Vec::new(alloc);
    let mut left = order;
    while let Some((first, later)) = left.split_first() {
        push(&mut out, first.desc)?;
        left = later;
    }
    Ok(out)
}
