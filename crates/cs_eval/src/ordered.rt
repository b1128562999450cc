//! The hits of a filter in an order that stands behind it, found in one walk: each document is
//! ranked as soon as the filter is true of it, while it is at hand.
ghost use Rattle.std.specs.Prelude.{◌≡◌, ◌∷◌, [], IfOk, filter, map};
ghost use Rattle.cs_value.specs.Words.{list_of};
ghost use Rattle.cs_value.specs.View.{tree, fields};
ghost use Rattle.cs_syntax.specs.Expression.{keys_of};
ghost use Rattle.cs_syntax.specs.View.{expression, order_key_of};
ghost use Rattle.cs_view.specs.Scopes.{scope_of};
ghost use Rattle.cs_meaning.specs.Operators.{is_true};
ghost use Rattle.cs_meaning.specs.Ordered.{directions as directions_of, ranked, sorted};
ghost use Rattle.cs_meaning.specs.Values.{value as value_of, keys_values};
ghost use Rattle.cs_order.specs.First.{all_kept, limited};
ghost use Rattle.cs_order.specs.Ranked.{ranked as ranked_of};
ghost use Rattle.cs_parts.specs.Parts.{got};

use crate::queries::NO_DOCS;
use cs_expr::{Setting, holds, rank_into};
use cs_levels::list_in_order;
use cs_order::Ranked;
use cs_parts::{Got, Item, directions};
use cs_past::are_quiet;
use cs_syntax::{Expr, OrderKey};
use cs_value::{Fields, NoMemory, Val};
use cs_view::{Record, Scope};
use std::alloc::Global;

// The documents of which the condition is true, each beside the values of its keys, or those alone
// that are among the first in the order, where there is a limit. No dataset is asked.
#[tactic(auto, using(cs_order::proofs::Kept::can_keep_none))]
fn rank_hits<'k, 's: 'k>(
    alloc: Global,
    condition: &'s Expr,
    order: &'k [OrderKey],
    directions: &[bool],
    limit: Option<usize>,
    frame: &'k Scope<'k>,
    params: &'k Fields,
    docs: Vec<&'s Val>,
) -> Result<Vec<Ranked<'k, 's>>, NoMemory>
    ensures { IfOk result (λ v. map ranked_of v.items ≡ all_kept directions.now limit []
        (map (ranked (λ x. keys_values [] (fields params.now) (keys_of (map order_key_of
        order.now)) (x ∷ scope_of frame.now))) (filter (λ x. is_true (value_of []
        (fields params.now) (expression condition.now) (x ∷ scope_of frame.now)))
        (map (λ r. tree r.now) docs.entry.items)))) }
{
    let silent = are_quiet(order);
    let setting = Setting {
        alloc,
        params,
        source: &NO_DOCS,
    };
    let mut aside = Record::new(alloc);
    let mut nothing = ();
    let mut kept = Vec::new(alloc);
    for doc in docs {
        if holds(&setting, condition, frame, doc, &mut aside, &mut nothing)? {
            rank_into(
                &setting,
                order,
                directions,
                limit,
                silent,
                frame,
                Item::Lent(doc),
                &mut kept,
                &mut aside,
                &mut nothing,
            )?;
        }
    }
    Ok(kept)
}

// The documents of which the condition is true, in the order, or the first of them alone, where
// there is a limit.
pub(crate) fn hits_in_order<'s>(
    alloc: Global,
    condition: &'s Expr,
    order: &'s [OrderKey],
    limit: Option<usize>,
    frame: &Scope<'s>,
    params: &'s Fields,
    docs: Vec<&'s Val>,
) -> Result<Got<'s>, NoMemory>
    ensures { IfOk result (λ g. got g ≡ list_of (map (λ x. x.item) (limited limit (sorted
        (directions_of (keys_of (map order_key_of order.now))) (map (ranked (λ x. keys_values []
        (fields params.now) (keys_of (map order_key_of order.now)) (x ∷ scope_of frame.now)))
        (filter (λ x. is_true (value_of [] (fields params.now) (expression condition.now)
        (x ∷ scope_of frame.now))) (map (λ r. tree r.now) docs.entry.items))))))) }
{
    let directions = directions(alloc, order)?;
    let ranked = rank_hits(
        alloc,
        condition,
        &*order,
        &directions,
        limit,
        &*frame,
        &*params,
        docs,
    )?;
    list_in_order(alloc, ranked, &directions, limit)
}
