//! Elements that are none of the first of an order. Their keys are found one by one, and most often
//! the first one settles it.
ghost use Rattle.std.specs.Prelude.{◌≡◌, ◌∷◌, IfSome, List, get_or, map, true};
ghost use Rattle.cs_value.specs.Tree.{Tree, Pairs, null};
ghost use Rattle.cs_value.specs.View.{tree};
ghost use Rattle.cs_syntax.specs.Expression.{keys_of};
ghost use Rattle.cs_syntax.specs.View.{order_key_of};
ghost use Rattle.cs_view.specs.Scopes.{scope_of};
ghost use Rattle.cs_plan.specs.Simple.{quiet_keys};
ghost use Rattle.cs_meaning.specs.Ordered.{by_keys, ranked};
ghost use Rattle.cs_meaning.specs.Values.{keys_values};
ghost use Rattle.cs_order.specs.First.{CanKeep, kept};
ghost use Rattle.cs_order.specs.Ranked.{ranked as ranked_of};
ghost use Rattle.cs_parts.specs.Parts.{item};

use cs_direct::direct_part;
use cs_order::{Ranked, compare_keys, key_at};
use cs_parts::Item;
use cs_plan::is_quiet;
use cs_syntax::OrderKey;
use cs_value::Val;
use cs_view::Scope;
use std::cmp::Ordering;

/// Whether the keys of an order look nothing up.
#[tactic(auto, unfolding(cs_syntax::specs::View::order_key_of, cs_syntax::specs::View::expression))]
pub fn are_quiet(order: &[OrderKey]) -> bool
    ensures { result ≡ quiet_keys (keys_of (map order_key_of order.now)) }
{
    for key in order {
        if !is_quiet(&key.key) {
            return false;
        }
    }
    true
}

// The key at a place of an order, where it is a part of what the scope has. `None` says nothing.
fn part_at<'s>(order: &'s [OrderKey], place: usize, frame: &Scope<'s>) -> Option<&'s Val>
    ensures { IfSome result (λ v. (docs : List Tree) (params : Pairs) → tree v.now ≡ get_or
        (keys_values docs params (keys_of (map order_key_of order.now)) (scope_of frame.now))
        place null) }
{
    if place < order.len() {
        direct_part(&order[place].key, frame)
    } else {
        None
    }
}

// How the keys of an order in a scope compare with those of a bound.
fn compare_in_scope<'s>(
    directions: &[bool],
    order: &'s [OrderKey],
    frame: &Scope<'s>,
    bound: &[Item<'_>],
) -> Option<Ordering>
    ensures { IfSome result (λ o. (docs : List Tree) (params : Pairs) → o ≡ by_keys directions.now
        (keys_values docs params (keys_of (map order_key_of order.now)) (scope_of frame.now))
        (map item bound.now)) }
{
    let mut left = directions;
    let mut place = 0;
    while let Some((descending, later)) = left.split_first() {
        let part = part_at(order, place, frame)?;
        let found = compare_keys(*descending, Some(part), key_at(bound, place));
        match found {
            Ordering::Less => return Some(Ordering::Less),
            Ordering::Greater => return Some(Ordering::Greater),
            Ordering::Equal => {}
        }
        left = later;
        place += 1;
    }
    Some(Ordering::Equal)
}

/// How the keys of an order compare with those of a bound in the scope of the element in front,
/// where those that settle it are parts of what the scope has: they are found one by one, no
/// further than they tie. It takes no memory. `None` says nothing.
pub fn compare_parts<'k>(
    directions: &[bool],
    order: &'k [OrderKey],
    frame: &'k Scope<'k>,
    this: &'k Val,
    bound: &[Item<'_>],
) -> Option<Ordering>
    ensures { IfSome result (λ o. (docs : List Tree) (params : Pairs) → o ≡ by_keys directions.now
        (keys_values docs params (keys_of (map order_key_of order.now))
        (tree this.now ∷ scope_of frame.now)) (map item bound.now)) }
{
    let near = Scope {
        this,
        parent: Some(frame),
    };
    compare_in_scope(directions, order, &near, bound)
}

/// Whether an element is seen to be none of the first of an order: as many as are asked for are
/// kept, and it does not stand before the last of them. `false` says nothing.
pub fn is_past(
    directions: &[bool],
    order: &[OrderKey],
    limit: Option<usize>,
    frame: &Scope<'_>,
    one: &Val,
    first: &[Ranked<'_, '_>],
) -> bool
    requires { CanKeep directions.now limit (map ranked_of first.now) }
    ensures { result ≡ true → (docs : List Tree) (params : Pairs) → kept directions.now limit
        (ranked (λ x. keys_values docs params (keys_of (map order_key_of order.now))
        (x ∷ scope_of frame.now)) (tree one.now)) (map ranked_of first.now)
        ≡ map ranked_of first.now }
{
    let Some(limit) = limit else {
        return false;
    };
    if first.len() < limit {
        return false;
    }
    let Some(last) = first.last() else {
        return false;
    };
    match compare_parts(directions, order, frame, one, &last.by) {
        Some(found) => !found.is_lt(),
        None => false,
    }
}
