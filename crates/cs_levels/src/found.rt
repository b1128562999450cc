//! What is made of values once they are found: the parts of the evaluation that find none.
ghost use Rattle.std.specs.Prelude.{◌≡◌, ◌∷◌, ◌++◌, [], IfOk, OnOk, map};
ghost use Rattle.cs_value.specs.Words.{list_of};
ghost use Rattle.cs_value.specs.Pairs.{put};
ghost use Rattle.cs_value.specs.View.{fields};
ghost use Rattle.cs_syntax.specs.Brackets.{key_of};
ghost use Rattle.cs_syntax.specs.View.{expression};
ghost use Rattle.cs_view.specs.Scopes.{scope_of};
ghost use Rattle.cs_ops.specs.Operators.{between as between_values, within as within_values};
ghost use Rattle.cs_plan.specs.Steps.{in_scope};
ghost use Rattle.cs_meaning.specs.Operators.{applied as applied_value, in_path as in_path_value, operated as operated_value, put_under, references as references_value, sole as sole_value, spread_into};
ghost use Rattle.cs_order.specs.First.{in_order as ranked_in_order};
ghost use Rattle.cs_order.specs.Ranked.{ranked as ranked_of};
ghost use Rattle.cs_parts.specs.Parts.{got, item};

use cs_calls::{applied, sole};
use cs_func::Function;
use cs_ops::between;
use cs_order::{Ranked, in_order, items_of};
use cs_parts::{
    Got, Item, among, at_level, gather, in_path, operated, push, put_all, put_bare, references,
    settle,
};
use cs_syntax::{BinSign, Expr};
use cs_value::{Fields, NoMemory, Txt};
use cs_view::Scope;
use std::alloc::Global;

/// An operator between two values.
pub fn operated_got<'s>(
    alloc: Global,
    sign: BinSign,
    left: Item<'_>,
    right: Item<'_>,
) -> Result<Got<'s>, NoMemory>
    ensures { IfOk result (λ g. got g
        ≡ operated_value sign (item left.entry) (item right.entry)) }
{
    Ok(Got::Whole(operated(alloc, sign, left, right.val())?))
}

/// Whether a value lies between two others.
pub fn lies_between<'s>(here: Item<'_>, low: Item<'_>, high: Item<'_>, closed: bool) -> Got<'s>
    ensures { got result
        ≡ between_values (item here.entry) (item low.entry) (item high.entry) closed }
{
    Got::Whole(between(here.val(), low.val(), high.val(), closed))
}

/// Whether a value is among those of a list.
pub fn is_among<'s>(here: Item<'_>, list: Got<'_>) -> Got<'s>
    ensures { got result ≡ within_values (item here.entry) (got list.entry) }
{
    Got::Whole(among(here.val(), list))
}

/// Whether the one value of these is a pattern that matches.
pub fn matches_path<'s>(
    alloc: Global,
    here: Item<'_>,
    values: Vec<Got<'_>>,
) -> Result<Got<'s>, NoMemory>
    ensures { IfOk result (λ g. got g
        ≡ in_path_value (item here.entry) (sole_value (map got values.entry.items))) }
{
    let pattern = settle(alloc, sole(values))?;
    Ok(Got::Whole(in_path(here.val(), pattern.val())))
}

/// Whether the innermost value of a scope refers to one of these.
pub fn refers_to<'s>(
    alloc: Global,
    values: Vec<Got<'_>>,
    frame: &Scope<'_>,
) -> Result<Got<'s>, NoMemory>
    ensures { IfOk result (λ g. got g
        ≡ references_value (map got values.entry.items) (in_scope 0 (scope_of frame.now))) }
{
    let this = settle(alloc, at_level(frame, 0))?;
    Ok(Got::Whole(references(alloc, &values, this.val())?))
}

/// The value of a function of its arguments' values.
pub fn applied_got<'s>(
    alloc: Global,
    function: Option<Function>,
    values: Vec<Got<'_>>,
) -> Result<Got<'s>, NoMemory>
    ensures { IfOk result (λ g. got g ≡ applied_value function (map got values.entry.items)) }
{
    Ok(Got::Whole(applied(alloc, function, values)?))
}

/// A value put under a name.
pub(crate) fn put_named(
    alloc: Global,
    pairs: &mut Fields,
    name: &Txt,
    value: Got<'_>,
) -> Result<(), NoMemory>
    ensures { OnOk result (fields pairs.new ≡ put name.now (got value.entry) (fields pairs.old)) }
{
    let val = value.into_val(alloc)?;
    pairs.set(name.copy(alloc)?, val)
}

/// A value put under the key that its expression has by itself.
pub(crate) fn put_keyed(
    alloc: Global,
    pairs: &mut Fields,
    expr: &Expr,
    value: Got<'_>,
) -> Result<(), NoMemory>
    ensures { OnOk result (fields pairs.new
        ≡ put_under (key_of (expression expr.now)) (got value.entry) (fields pairs.old)) }
{
    let val = value.into_val(alloc)?;
    put_bare(alloc, pairs, expr, val)
}

/// The pairs of a value that is an object put in.
pub(crate) fn put_spread(alloc: Global, pairs: &mut Fields, value: Got<'_>) -> Result<(), NoMemory>
    ensures { OnOk result (fields pairs.new ≡ spread_into (fields pairs.old) (got value.entry)) }
{
    let val = settle(alloc, value)?;
    put_all(alloc, pairs, val.val())
}

/// A value as the last element.
pub fn push_got<'s>(
    alloc: Global,
    items: &mut Vec<Item<'s>>,
    value: Got<'s>,
) -> Result<(), NoMemory>
    ensures { OnOk result (map item items.new.items
        ≡ map item items.old.items ++ got value.entry ∷ []) }
{
    push(items, settle(alloc, value)?)
}

/// The elements in the order of their keys.
pub fn list_in_order<'s>(
    alloc: Global,
    ranked: Vec<Ranked<'_, 's>>,
    directions: &[bool],
    limit: Option<usize>,
) -> Result<Got<'s>, NoMemory>
    ensures { IfOk result (λ g. got g ≡ list_of (map (λ x. x.item)
        (ranked_in_order directions.now limit (map ranked_of ranked.entry.items)))) }
{
    let sorted = in_order(ranked, directions, limit)?;
    let items = items_of(alloc, sorted)?;
    gather(alloc, items)
}
