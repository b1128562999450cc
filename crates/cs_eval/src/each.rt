//! Mapped queries, whose answer is made hit by hit: whether a query is one, and the share of a hit.
ghost use Rattle.std.specs.Prelude.{◌≡◌, ◌++◌, true, IfOk, OnOk, map};
ghost use Rattle.cs_value.specs.View.{tree, fields};
ghost use Rattle.cs_syntax.specs.Expression.{steps_of};
ghost use Rattle.cs_syntax.specs.Queries.{expression_of};
ghost use Rattle.cs_syntax.specs.View.{step_of};
ghost use Rattle.cs_view.specs.View.{document_of};
ghost use Rattle.cs_window.specs.Mapped.{has_pipe, is_elementwise, is_mapped, is_piped, maps_each, share, share_looked};

use crate::queries::parts;
use cs_expr::{Setting, through};
use cs_parts::{Entrance, Form, Got, entrance_of, first_kind, form_of, kinds};
use cs_plan::is_quiet;
use cs_syntax::{Query, Step};
use cs_value::{Fields, NoMemory, Steps, Val};
use cs_view::{Doc, Record, Scope, View};
use cs_window::mapped_is_filtered;
use std::alloc::Global;
use std::sync::ledger::Ledger;

fn is_elementwise(entrance: Entrance) -> bool
    ensures { result ≡ is_elementwise entrance }
{
    match entrance {
        Entrance::Mapped => true,
        Entrance::Whole | Entrance::Flat => false,
    }
}

fn is_piped(form: Form) -> bool
    ensures { result ≡ is_piped form }
{
    match form {
        Form::Pipe => true,
        Form::Single | Form::Projection | Form::Listing | Form::Element => false,
    }
}

// Whether a piped call stands among the steps.
fn has_pipe(steps: &[Step]) -> bool
    ensures { result ≡ has_pipe (steps_of (map step_of steps.now)) }
{
    for step in steps {
        if is_piped(form_of(step)) {
            return true;
        }
    }
    false
}

// Whether the steps make one value of each element of a list, and do nothing with the list.
fn maps_each(alloc: Global, steps: &[Step]) -> Result<bool, NoMemory>
    ensures { IfOk result (λ b. b ≡ maps_each (steps_of (map step_of steps.now))) }
{
    let kinds = kinds(alloc, steps)?;
    if !is_elementwise(entrance_of(first_kind(&kinds))) {
        return Ok(false);
    }
    Ok(!has_pipe(steps))
}

/// Whether a query is mapped: its filter looks nothing up, and the steps behind it make one value
/// of each hit. What they look up for it may be anything. `NoMemory` where the allocator has no
/// room for the kinds of many steps.
pub fn mapped(alloc: Global, query: &Query) -> Result<bool, NoMemory>
    ensures { IfOk result (λ b. b ≡ is_mapped (expression_of query.now)) }
{
    let Some((condition, later)) = parts(query.expr()) else {
        return Ok(false);
    };
    if !is_quiet(condition) {
        return Ok(false);
    }
    maps_each(alloc, later)
}

/// The share of a document in the answer of a mapped query: what the steps behind the filter make
/// of it over the documents of a view. The record takes the key of each look-up. `NoMemory` where
/// the allocator has no room for it.
pub fn share<V: View<L>, L: Ledger>(
    alloc: Global,
    query: &Query,
    params: &Fields,
    doc: &Doc,
    view: &V,
    keys: &mut Record,
    steps: &mut Steps<L>,
) -> Result<Val, NoMemory>
    requires { is_mapped (expression_of query.now) ≡ true }
    ensures value { IfOk result (λ v. tree v ≡ share (V.docs view.now)
        (expression_of query.now) (fields params.now) (document_of doc.now)) }
    ensures keys { OnOk result (keys.new ≡ keys.old ++ share_looked (V.docs view.now)
        (expression_of query.now) (fields params.now) (document_of doc.now)) }
{
    mapped_is_filtered();
    let root = Scope {
        this: query.null(),
        parent: None,
    };
    let Some((_condition, later)) = parts(query.expr()) else {
        unreachable!()
    };
    let kinds = kinds(alloc, later)?;
    let this = Got::Part(doc.val());
    let setting = Setting {
        alloc,
        params,
        source: view,
    };
    let share = through(&setting, later, &kinds, &root, this, keys, steps)?;
    share.into_val(alloc)
}
