//! Windows of queries: the first documents in an order, which alone an answer is made of; which
//! documents do not stand behind a bound; and what the steps behind a filter make of documents.
ghost use Rattle.std.specs.Prelude.{◌≡◌, ◌<◌, ◌≤◌, ◌∷◌, ◌++◌, [], IfOk, IfSome, OnOk, Some, filter, length, map, option_map, take, true};
ghost use Rattle.cs_value.specs.Tree.{null};
ghost use Rattle.cs_value.specs.View.{tree, fields};
ghost use Rattle.cs_syntax.specs.Expression.{keys_of, steps_of};
ghost use Rattle.cs_syntax.specs.Queries.{expression_of};
ghost use Rattle.cs_syntax.specs.View.{step_of, order_key_of};
ghost use Rattle.cs_view.specs.Scopes.{scope_of};
ghost use Rattle.cs_view.specs.View.{document_of};
ghost use Rattle.cs_plan.specs.Simple.{steps_behind, tail_of};
ghost use Rattle.cs_meaning.specs.Ordered.{directions as directions_of, ranked};
ghost use Rattle.cs_order.specs.Ranked.{ranked as ranked_of};
ghost use Rattle.cs_parts.specs.Parts.{item};
ghost use Rattle.cs_meaning.specs.Hits.{tail_looked, tail_over};
ghost use Rattle.cs_window.specs.Windowed.{is_filtered, is_windowed};
ghost use Rattle.cs_window.specs.Window.{by_order, is_near, keys_at, not_behind, order_keys, order_of, window};

use crate::queries::{NO_DOCS, parts, vals_of};
use cs_expr::{Setting, enter, pipes, rank_each, rank_keys};
use cs_order::{Ranked, first_asked, is_above, pipe_of};
use cs_parts::{Got, Item, directions, kinds, lend_all, push};
use cs_past::{are_quiet, compare_parts};
use cs_plan::is_quiet;
use cs_syntax::{OrderKey, Query, Step};
use cs_value::{Fields, NoMemory, Steps, Val};
use cs_view::{Doc, Record, Scope, View};
use std::alloc::Global;
use std::sync::ledger::Ledger;

// The keys of the order that stands first among steps, and the steps behind it.
#[tactic(auto, using(crate::proofs::Bounded::order))]
pub(crate) fn order_of(steps: &[Step]) -> Option<(&[OrderKey], &[Step])>
    ensures order { option_map (λ x. keys_of (map order_key_of x.0.now)) result
        ≡ order_of (steps_of (map step_of steps.now)) }
    ensures behind { IfSome result (λ x. steps_of (map step_of x.1.now)
        ≡ tail_of (steps_of (map step_of steps.now))) }
{
    let (first, behind) = steps.split_first()?;
    let (name, keys) = pipe_of(first)?;
    if name.as_str() == "order" {
        Some((keys, behind))
    } else {
        None
    }
}

// The keys of the order that stands first behind the filter of a query.
fn order_behind(query: &Query) -> Option<&[OrderKey]>
    requires { is_filtered (expression_of query.now) ≡ true }
    ensures { option_map (λ ks. keys_of (map order_key_of ks.now)) result
        ≡ order_of (tail_of (steps_behind (expression_of query.now))) }
{
    let Some((_condition, later)) = parts(query.expr()) else {
        unreachable!()
    };
    match order_of(later) {
        Some((order, _behind)) => Some(order),
        None => None,
    }
}

/// How many documents the window of a query has: the first in the order that stands behind its
/// filter, which alone the answer is made of. `None` where no order stands there, or the step
/// behind it does not say that it looks at a few alone, 257 at most.
pub fn window(query: &Query) -> Option<usize>
    ensures many { IfSome result (λ many. option_map (λ w. w.many)
        (window (expression_of query.now)) ≡ Some many) }
    ensures few { IfSome result (λ many. many ≤ 257) }
{
    let (_condition, later) = parts(query.expr())?;
    let (_order, behind) = order_of(later)?;
    first_asked(behind)
}

/// Whether a query is windowed: its filter looks nothing up, and behind it stands an order by keys
/// that look nothing up, and then a step that says that it looks at a few alone. What stands behind
/// may look up anything.
pub fn windowed(query: &Query) -> bool
    ensures { result ≡ true → is_windowed (expression_of query.now) ≡ true }
{
    let Some((condition, later)) = parts(query.expr()) else {
        return false;
    };
    let Some((order, behind)) = order_of(later) else {
        return false;
    };
    if !is_quiet(condition) {
        return false;
    }
    if first_asked(behind).is_none() {
        return false;
    }
    are_quiet(order)
}

// Documents as elements that are lent.
fn lent_docs<'d>(alloc: Global, docs: &'d [Doc]) -> Result<Vec<Item<'d>>, NoMemory>
    ensures { IfOk result (λ v. map item v.items ≡ map document_of docs.now) }
{
    let mut items = Vec::with_capacity(alloc, docs.len())?;
    for doc in docs {
        push(&mut items, Item::Lent(doc.val()))?;
    }
    Ok(items)
}

// Copies of the values.
fn copies(alloc: Global, items: &[Item<'_>]) -> Result<Vec<Val>, NoMemory>
    ensures { IfOk result (λ v. map tree v.items ≡ map item items.now) }
{
    let mut vals = Vec::with_capacity(alloc, items.len())?;
    for one in items {
        push(&mut vals, one.val().copy(alloc)?)?;
    }
    Ok(vals)
}

// A value beside what an order ranks it by, in the scope of null alone. No dataset is asked.
fn ranked<'k>(
    alloc: Global,
    order: &'k [OrderKey],
    root: &'k Scope<'k>,
    params: &'k Fields,
    this: &'k Val,
) -> Result<Ranked<'k, 'k>, NoMemory>
    requires { scope_of root.now ≡ null ∷ [] }
    ensures { IfOk result (λ r. ranked_of r ≡ ranked (order_keys
        (keys_of (map order_key_of order.now)) (fields params.now)) (tree this.now)) }
{
    let mut aside = Record::new(alloc);
    let mut nothing = ();
    let setting = Setting {
        alloc,
        params,
        source: &NO_DOCS,
    };
    let by = rank_keys(&setting, order, root, this, &mut aside, &mut nothing)?;
    Ok(Ranked {
        by,
        item: Item::Lent(this),
    })
}

// The first documents in an order, each beside what it is ranked by.
fn first_ranked<'k>(
    alloc: Global,
    order: &'k [OrderKey],
    limit: usize,
    root: &'k Scope<'k>,
    params: &'k Fields,
    docs: &'k [Doc],
) -> Result<Vec<Ranked<'k, 'k>>, NoMemory>
    requires { scope_of root.now ≡ null ∷ [] }
    ensures { IfOk result (λ v. map ranked_of v.items ≡ take limit (by_order
        (keys_of (map order_key_of order.now)) (fields params.now) (map document_of docs.now))) }
{
    let directions = directions(alloc, order)?;
    let items = lent_docs(alloc, docs)?;
    let mut aside = Record::new(alloc);
    let mut nothing = ();
    let setting = Setting {
        alloc,
        params,
        source: &NO_DOCS,
    };
    rank_each(
        &setting,
        order,
        &directions,
        Some(limit),
        root,
        items,
        &mut aside,
        &mut nothing,
    )
}

// Whether a document does not stand behind a bound in an order. Most often the first key settles
// it; where it is no part of the document, all keys are found.
fn is_not_behind<'k>(
    alloc: Global,
    order: &'k [OrderKey],
    directions: &[bool],
    root: &'k Scope<'k>,
    params: &'k Fields,
    bound: &Ranked<'_, '_>,
    this: &'k Val,
) -> Result<bool, NoMemory>
    requires root { scope_of root.now ≡ null ∷ [] }
    requires directions { directions.now ≡ directions_of (keys_of (map order_key_of order.now)) }
    ensures { IfOk result (λ b. b ≡ not_behind (keys_of (map order_key_of order.now))
        (map item bound.now.by.items)
        (order_keys (keys_of (map order_key_of order.now)) (fields params.now) (tree this.now))) }
{
    if let Some(found) = compare_parts(directions, order, root, this, &bound.by) {
        return Ok(!found.is_gt());
    }
    let one = ranked(alloc, order, root, params, this)?;
    Ok(!is_above(directions, &one, bound))
}

// Copies of those of the documents that do not stand behind a bound in an order.
fn copies_near<'k>(
    alloc: Global,
    order: &'k [OrderKey],
    root: &'k Scope<'k>,
    params: &'k Fields,
    bound: &Ranked<'_, '_>,
    docs: &'k [Doc],
) -> Result<Vec<Doc>, NoMemory>
    requires { scope_of root.now ≡ null ∷ [] }
    ensures { IfOk result (λ v. map document_of v.items ≡ filter
        (λ d. not_behind (keys_of (map order_key_of order.now)) (map item bound.now.by.items)
        (order_keys (keys_of (map order_key_of order.now)) (fields params.now) d))
        (map document_of docs.now)) }
{
    let directions = directions(alloc, order)?;
    let mut near = Vec::new(alloc);
    for doc in docs {
        if is_not_behind(alloc, order, &directions, root, params, bound, doc.val())? {
            push(&mut near, doc.copy()?)?;
        }
    }
    Ok(near)
}

/// Whether a document does not stand behind a bound in the order that stands first behind the
/// filter of a query; where no order stands there, each document is near. The bound is what
/// `nearest` tells of a document. It visits nothing.
pub fn is_near(
    alloc: Global,
    query: &Query,
    params: &Fields,
    bound: &[Val],
    doc: &Doc,
) -> Result<bool, NoMemory>
    requires { is_filtered (expression_of query.now) ≡ true }
    ensures { IfOk result (λ b. b ≡ is_near (expression_of query.now) (fields params.now)
        (map tree bound.now) (document_of doc.now)) }
{
    let root = Scope {
        this: query.null(),
        parent: None,
    };
    let Some(order) = order_behind(query) else {
        return Ok(true);
    };
    let directions = directions(alloc, order)?;
    let last = Ranked {
        by: lend_all(alloc, bound)?,
        item: Item::Lent(query.null()),
    };
    is_not_behind(alloc, order, &directions, &root, params, &last, doc.val())
}

/// What the document at a place of the order is ordered by, the place counted from 0, where an
/// order stands first behind the filter of a query; and copies of the documents that do not stand
/// behind that one, in the order in which they came. `None` exactly where no order stands there. It
/// visits nothing.
pub fn nearest(
    alloc: Global,
    query: &Query,
    params: &Fields,
    docs: &[Doc],
    place: usize,
) -> Result<Option<(Vec<Val>, Vec<Doc>)>, NoMemory>
    requires filtered { is_filtered (expression_of query.now) ≡ true }
    requires within { place < length docs.now }
    ensures bound { IfOk result (λ o. option_map (λ x. map tree x.0.items) o
        ≡ keys_at (expression_of query.now) (fields params.now) (map document_of docs.now) place) }
    ensures near { IfOk result (λ o. IfSome o (λ x. map document_of x.1.items
        ≡ filter (is_near (expression_of query.now) (fields params.now) (map tree x.0.items))
        (map document_of docs.now))) }
{
    let root = Scope {
        this: query.null(),
        parent: None,
    };
    let Some(order) = order_behind(query) else {
        return Ok(None);
    };
    let first = first_ranked(alloc, order, place + 1, &root, params, docs)?;
    let last = &first[place];
    let near = copies_near(alloc, order, &root, params, last, docs)?;
    Ok(Some((copies(alloc, &last.by)?, near)))
}

/// What the steps behind the filter of a query make of documents over the documents of a view: of
/// its hits, the value of a windowed query. The record takes the key of each look-up.
pub fn tail_over<'s, V: View<L>, L: Ledger>(
    alloc: Global,
    query: &'s Query,
    params: &'s Fields,
    hits: &'s [Doc],
    view: &'s V,
    keys: &mut Record,
    steps: &mut Steps<L>,
) -> Result<Val, NoMemory>
    requires { is_filtered (expression_of query.now) ≡ true }
    ensures value { IfOk result (λ v. tree v ≡ tail_over (V.docs view.now)
        (expression_of query.now) (fields params.now) (map document_of hits.now)) }
    ensures keys { OnOk result (keys.new ≡ keys.old ++ tail_looked (V.docs view.now)
        (expression_of query.now) (fields params.now) (map document_of hits.now)) }
{
    let root = Scope {
        this: query.null(),
        parent: None,
    };
    let Some((_condition, later)) = parts(query.expr()) else {
        unreachable!()
    };
    let kinds = kinds(alloc, later)?;
    let list = Got::Parts(vals_of(alloc, hits)?);
    let setting = Setting {
        alloc,
        params,
        source: view,
    };
    let first = enter(&setting, later, &kinds, &root, list, keys, steps)?;
    let all = pipes(&setting, later, &kinds, &root, first, keys, steps)?;
    all.into_val(alloc)
}
