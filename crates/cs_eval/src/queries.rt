//! Queries: any one over a view, and those of one filter over the documents that have their key.
ghost use Rattle.std.specs.Prelude.{◌≡◌, ◌≤◌, ◌+◌, ◌∷◌, ◌++◌, [], true, false, IfNone, IfOk, IfSome, OnOk, map, filter};
ghost use Rattle.cs_value.specs.Words.{list_of};
ghost use Rattle.cs_value.specs.Tree.{null as null_tree};
ghost use Rattle.cs_value.specs.View.{tree, fields};
ghost use Rattle.cs_syntax.specs.Expression.{steps_of, chain, everything, more_steps, bracket as bracket_step};
ghost use Rattle.cs_syntax.specs.Queries.{expression_of};
ghost use Rattle.cs_syntax.specs.View.{expression, step_of};
ghost use Rattle.cs_view.specs.Scopes.{scope_of};
ghost use Rattle.cs_view.specs.View.{document_of};
ghost use Rattle.cs_plan.specs.Simple.{is_simple, query_key, query_keys};
ghost use Rattle.cs_plan.specs.Steps.{bracketed, condition};
ghost use Rattle.cs_meaning.specs.Hits.{is_hit, hits, tail, cost};
ghost use Rattle.cs_meaning.specs.Looked.{query_looked};
ghost use Rattle.cs_meaning.specs.Operators.{is_true};
ghost use Rattle.cs_parts.specs.Parts.{got};
ghost use Rattle.cs_meaning.specs.Values.{value as value_of, pipes_value, query_value};
ghost use Rattle.cs_expr.specs.Starts.{enter_value};
ghost use Rattle.cs_window.specs.Windowed.{is_filtered};

use crate::ordered::hits_in_order;
use crate::windows::order_of;
use cs_expr::{Setting, enter, eval as evaluate, holds, keep_lent, pipes};
use cs_order::first_asked;
use cs_parts::{Got, NoDocs, Source, head_filter, kinds, push};
use cs_plan::{choose, filter_keys, first_by_kind, simple};
use cs_syntax::{Expr, Query, Step};
use cs_value::{Fields, NoMemory, Steps, Val};
use cs_view::{Doc, Key, Record, Scope, View};
use cs_window::simple_is_filtered;
use std::alloc::Global;
use std::sync::ledger::Ledger;

// The dataset of an evaluation that asks for no document.
pub(crate) static NO_DOCS: NoDocs = NoDocs;

/// The value of a query over the documents of a view: that of GROQ-1.revision1 as this project's
/// profile has it, in a scope whose `@` is null and which has no parent. What is borrowed is lent
/// on: an attribute, a document, and what filters, elements and slices leave of a list.
///
/// The record takes the key of each look-up, in the order of evaluation, also where nothing was
/// found; a part that the value does not need is not looked at. A simple query visits no more
/// documents than have its key. After `NoMemory` the record may hold further keys.
pub fn eval<'s, V: View<L>, L: Ledger>(
    alloc: Global,
    query: &'s Query,
    params: &'s Fields,
    view: &'s V,
    keys: &mut Record,
    steps: &mut Steps<L>,
) -> Result<Got<'s>, NoMemory>
    ensures value { IfOk result (λ g. got g ≡ query_value (V.docs view.now) (fields params.now)
        (expression_of query.now)) }
    ensures keys { OnOk result (keys.new ≡ keys.old ++ query_looked (V.docs view.now)
        (fields params.now) (expression_of query.now)) }
    ensures visits { is_simple (expression_of query.now) ≡ true
        → steps.new ≤ steps.old + cost (expression_of query.now) (fields params.now) (V.docs
        view.now) }
{
    let root = Scope {
        this: query.null(),
        parent: None,
    };
    if simple(query) {
        return simple_value(alloc, query, &root, params, view, keys, steps);
    }
    let setting = Setting {
        alloc,
        params,
        source: view,
    };
    evaluate(&setting, query.expr(), &root, keys, steps)
}

/// Whether the filter of a query is true of the document, where no dataset is asked. It visits
/// nothing, and no counter is handed over.
pub fn hit(alloc: Global, query: &Query, params: &Fields, doc: &Doc) -> Result<bool, NoMemory>
    requires { is_filtered (expression_of query.now) ≡ true }
    ensures { IfOk result (λ b. b
        ≡ is_hit (expression_of query.now) (fields params.now) (document_of doc.now)) }
{
    let root = Scope {
        this: query.null(),
        parent: None,
    };
    let Some((condition, _later)) = parts(query.expr()) else {
        unreachable!()
    };
    let mut aside = Record::new(alloc);
    let mut nothing = ();
    let setting = Setting {
        alloc,
        params,
        source: &NO_DOCS,
    };
    holds(
        &setting,
        condition,
        &root,
        doc.val(),
        &mut aside,
        &mut nothing,
    )
}

/// Copies of the documents of a view that make the filter of a query true where it is evaluated
/// over no documents, as that of a simple, a mapped or a windowed query is over any: in the order
/// of the dataset. No more documents are visited than have the key of the query.
pub fn hits<V: View<L>, L: Ledger>(
    alloc: Global,
    query: &Query,
    params: &Fields,
    view: &V,
    steps: &mut Steps<L>,
) -> Result<Vec<Doc>, NoMemory>
    requires { is_filtered (expression_of query.now) ≡ true }
    ensures hits { IfOk result (λ v. map document_of v.items
        ≡ hits (expression_of query.now) (fields params.now) (V.docs view.now)) }
    ensures visits { steps.new
        ≤ steps.old + cost (expression_of query.now) (fields params.now) (V.docs view.now) }
{
    let keys = query_keys(alloc, query, params)?;
    let places = View::select_all(view, alloc, &keys)?;
    let mut found = Vec::new(alloc);
    for place in &places {
        push_hit(alloc, query, params, view.at(*place, steps), &mut found)?;
    }
    Ok(found)
}

// Puts a copy of the document last, where it makes the filter true.
fn push_hit(
    alloc: Global,
    query: &Query,
    params: &Fields,
    doc: &Doc,
    found: &mut Vec<Doc>,
) -> Result<(), NoMemory>
    requires { is_filtered (expression_of query.now) ≡ true }
    ensures { OnOk result (map document_of found.new.items
        ≡ map document_of found.old.items
        ++ hits (expression_of query.now) (fields params.now) (document_of doc.now ∷ [])) }
{
    if hit(alloc, query, params, doc)? {
        found.push(doc.copy()?)?;
    }
    Ok(())
}

/// The keys that the filter of a query gives: each of its hits has them all. It visits nothing.
/// `NoMemory` where the allocator has no room for them.
pub fn query_keys(alloc: Global, query: &Query, params: &Fields) -> Result<Vec<Key>, NoMemory>
    requires { is_filtered (expression_of query.now) ≡ true }
    ensures { IfOk result
        (λ ks. ks.items ≡ query_keys (expression_of query.now) (fields params.now)) }
{
    let root = Scope {
        this: query.null(),
        parent: None,
    };
    let Some((condition, _later)) = parts(query.expr()) else {
        unreachable!()
    };
    filter_keys(alloc, condition, &root, params)
}

/// The key by which a query of one filter looks its documents up. It visits nothing. `NoMemory`
/// where the allocator has no room for it.
pub fn query_key(alloc: Global, query: &Query, params: &Fields) -> Result<Key, NoMemory>
    requires { is_filtered (expression_of query.now) ≡ true }
    ensures { IfOk result
        (λ k. k ≡ query_key (expression_of query.now) (fields params.now)) }
{
    let root = Scope {
        this: query.null(),
        parent: None,
    };
    let Some((condition, _later)) = parts(query.expr()) else {
        unreachable!()
    };
    choose(alloc, condition, &root, params)
}

/// What the steps behind the filter of a query make of documents, where no dataset is asked: of its
/// hits, the value of a simple query. It visits nothing, and no counter is handed over.
pub fn tail<'s>(
    alloc: Global,
    query: &'s Query,
    params: &'s Fields,
    hits: &'s [Doc],
) -> Result<Val, NoMemory>
    requires { is_filtered (expression_of query.now) ≡ true }
    ensures { IfOk result (λ v. tree v
        ≡ tail (expression_of query.now) (fields params.now) (map document_of hits.now)) }
{
    let root = Scope {
        this: query.null(),
        parent: None,
    };
    let Some((_condition, later)) = parts(query.expr()) else {
        unreachable!()
    };
    let list = Got::Parts(vals_of(alloc, hits)?);
    tail_from(alloc, later, &root, params, list)?.into_val(alloc)
}

// The documents as values.
pub(crate) fn vals_of<'d>(alloc: Global, docs: &'d [Doc]) -> Result<Vec<&'d Val>, NoMemory>
    ensures { IfOk result (λ v. map (λ r. tree r.now) v.items ≡ map document_of docs.now) }
{
    let mut vals = Vec::with_capacity(alloc, docs.len())?;
    for doc in docs {
        push(&mut vals, doc.val())?;
    }
    Ok(vals)
}

// The filter of a query and the steps behind it.
#[tactic(auto, using(crate::proofs::Simples::form), unfolding(cs_syntax::specs::View::expression))]
pub(crate) fn parts(expr: &Expr) -> Option<(&Expr, &[Step])>
    ensures some { IfSome result (λ x. expression expr.now ≡ chain everything
        (more_steps (bracket_step (expression x.0.now)) (steps_of (map step_of x.1.now)))) }
    ensures filter { IfSome result (λ x. bracketed (expression x.0.now) ≡ condition) }
    ensures none { IfNone result (is_filtered (expression expr.now) ≡ false) }
{
    match expr {
        Expr::Chain { base, steps } => match &**base {
            Expr::All => head_filter(steps),
            _ => None,
        },
        _ => None,
    }
}

// What the steps make of a list, where no dataset is asked.
fn tail_from<'s>(
    alloc: Global,
    steps: &'s [Step],
    frame: &Scope<'s>,
    params: &'s Fields,
    list: Got<'s>,
) -> Result<Got<'s>, NoMemory>
    ensures { IfOk result (λ g. let ss = steps_of (map step_of steps.now) in
        got g ≡ pipes_value [] (fields params.now) ss (scope_of frame.now)
        (enter_value [] (fields params.now) ss (scope_of frame.now) (got list.entry))) }
{
    let kinds = kinds(alloc, steps)?;
    let mut aside = Record::new(alloc);
    let mut nothing = ();
    let setting = Setting {
        alloc,
        params,
        source: &NO_DOCS,
    };
    let first = enter(
        &setting,
        steps,
        &kinds,
        frame,
        list,
        &mut aside,
        &mut nothing,
    )?;
    pipes(
        &setting,
        steps,
        &kinds,
        frame,
        first,
        &mut aside,
        &mut nothing,
    )
}

// The same of those of the documents of which the condition is true.
fn tail_of_hits<'s>(
    alloc: Global,
    condition: &'s Expr,
    steps: &'s [Step],
    frame: &Scope<'s>,
    params: &'s Fields,
    docs: Vec<&'s Val>,
) -> Result<Got<'s>, NoMemory>
    ensures { IfOk result (λ g. let ss = steps_of (map step_of steps.now) in
        got g ≡ pipes_value [] (fields params.now) ss (scope_of frame.now)
        (enter_value [] (fields params.now) ss (scope_of frame.now) (list_of (filter
        (λ x. is_true (value_of [] (fields params.now) (expression condition.now)
        (x ∷ scope_of frame.now)))
        (map (λ r. tree r.now) docs.entry.items))))) }
{
    if let Some((order, behind)) = order_of(steps) {
        let limit = first_asked(behind);
        let first = hits_in_order(alloc, condition, order, limit, frame, params, docs)?;
        return tail_from(alloc, behind, frame, params, first);
    }
    let mut aside = Record::new(alloc);
    let mut nothing = ();
    let setting = Setting {
        alloc,
        params,
        source: &NO_DOCS,
    };
    let kept = keep_lent(&setting, condition, frame, docs, &mut aside, &mut nothing)?;
    tail_from(alloc, steps, frame, params, Got::Parts(kept))
}

// A simple query: its key is looked up, and nothing else. Its documents are found by all of its
// keys.
fn simple_value<'s, V: View<L>, L: Ledger>(
    alloc: Global,
    query: &'s Query,
    frame: &Scope<'s>,
    params: &'s Fields,
    view: &'s V,
    keys: &mut Record,
    count: &mut Steps<L>,
) -> Result<Got<'s>, NoMemory>
    requires simple { is_simple (expression_of query.now) ≡ true }
    requires root { scope_of frame.now ≡ null_tree ∷ [] }
    ensures value { IfOk result (λ g. got g ≡ query_value (V.docs view.now) (fields params.now)
        (expression_of query.now)) }
    ensures keys { OnOk result (keys.new ≡ keys.old ++ query_looked (V.docs view.now)
        (fields params.now) (expression_of query.now)) }
    ensures visits { count.new
        ≤ count.old + cost (expression_of query.now) (fields params.now) (V.docs view.now) }
{
    simple_is_filtered();
    let Some((condition, later)) = parts(query.expr()) else {
        unreachable!()
    };
    let all = filter_keys(alloc, condition, frame, params)?;
    let found = Source::<Steps<L>>::select_all(view, alloc, &all, count)?;
    keys.add(first_by_kind(all))?;
    tail_of_hits(alloc, condition, later, frame, params, found)
}
