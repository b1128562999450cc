//! One step of a chain: filters, projections and orders put an element in front of the scope.
ghost use Rattle.std.specs.Prelude.{◌≡◌, ◌∷◌, ◌++◌, [], IfOk, OnOk, map, filter, flat_map, true, if◌then◌else◌};
ghost use Rattle.cs_value.specs.Tree.{no_pairs};
ghost use Rattle.cs_value.specs.Words.{is_object as is_object_tree};
ghost use Rattle.cs_value.specs.View.{tree, fields};
ghost use Rattle.cs_syntax.specs.Expression.{entries_of, keys_of, pipe};
ghost use Rattle.cs_syntax.specs.View.{expression, step_of, entry_of, order_key_of};
ghost use Rattle.cs_view.specs.Scopes.{scope_of};
ghost use Rattle.cs_plan.specs.Simple.{quiet_keys};
ghost use Rattle.cs_plan.specs.Steps.{bracketed};
ghost use Rattle.cs_meaning.specs.Operators.{is_true as is_true_tree};
ghost use Rattle.cs_meaning.specs.Values.{value as value_of, entries_pairs, step_value, keys_values, projected, in_bracket};
ghost use Rattle.cs_meaning.specs.Looked.{looked, entries_looked, step_looked, bracket_looked, keys_looked};
ghost use Rattle.cs_meaning.specs.Ordered.{ranked, directions};
ghost use Rattle.cs_order.specs.First.{CanKeep, first_elements, all_kept, kept as kept_with};
ghost use Rattle.cs_order.specs.Ranked.{ranked as ranked_of};
ghost use Rattle.cs_parts.specs.Parts.{got, item};

use crate::expressions::{is_met, object, settled};
use crate::setting::Setting;
use cs_levels::{InBracket, in_bracket, list_in_order, ordered_elements};
use cs_meaning::quiet_asks_nothing;
use cs_order::{Ranked, admit, owned};
use cs_parts::{
    Got, Item, Source, attribute, deref, directions, each, gather, is_object, push, settle, sliced,
};
use cs_past::{are_quiet, is_past};
use cs_syntax::{Entry, Expr, OrderKey, Step};
use cs_value::{NoMemory, Txt, Val};
use cs_view::{Record, Scope};

// One step.
#[cycle(eval)]
#[tactic(auto, using(crate::proofs::Sets::step), unfolding(cs_syntax::proofs::Open::of_step))]
pub(crate) fn one_step<'s, S: Source<C>, C>(
    setting: &Setting<'s, S>,
    step: &'s Step,
    frame: &Scope<'s>,
    value: Got<'s>,
    keys: &mut Record,
    count: &mut C,
) -> Result<Got<'s>, NoMemory>
    ensures value { IfOk result (λ g. got g ≡ step_value (S.docs setting.now.source.now) (fields
        setting.now.params.now) (step_of step.now) (scope_of frame.now) (got value.entry)) }
    ensures keys { OnOk result (keys.new ≡ keys.old ++ step_looked (S.docs setting.now.source.now)
        (fields setting.now.params.now) (step_of step.now) (scope_of frame.now) (got value.entry)) }
{
    match step {
        Step::Attr(name) => Ok(attribute(value, name)),
        Step::Deref => deref(setting.alloc, value, setting.source, keys, count),
        Step::Each => Ok(each(value)),
        Step::Slice { from, to, closed } => sliced(setting.alloc, value, from, to, *closed),
        Step::Bracket(inner) => bracketed(setting, inner, frame, value, keys, count),
        Step::Project(list) => project(setting, list, frame, value, keys, count),
        Step::Pipe { name, keys: order } => ordered(
            setting, name, order, None, frame, value, keys, count,
        ),
    }
}

// An element, an attribute, or what a condition leaves.
#[cycle(eval)]
fn bracketed<'s, S: Source<C>, C>(
    setting: &Setting<'s, S>,
    inner: &'s Expr,
    frame: &Scope<'s>,
    value: Got<'s>,
    keys: &mut Record,
    count: &mut C,
) -> Result<Got<'s>, NoMemory>
    ensures value { IfOk result (λ g. got g ≡ in_bracket (bracketed (expression inner.now)) (λ x.
        is_true_tree (value_of (S.docs setting.now.source.now) (fields setting.now.params.now)
        (expression inner.now) (x ∷ (scope_of frame.now)))) (got value.entry)) }
    ensures keys { OnOk result (keys.new ≡ keys.old ++ bracket_looked (bracketed (expression
        inner.now)) (λ x. looked (S.docs setting.now.source.now) (fields setting.now.params.now)
        (expression inner.now) (x ∷ (scope_of frame.now))) (got value.entry)) }
{
    match in_bracket(setting.alloc, inner, value)? {
        InBracket::Given(found) => Ok(found),
        InBracket::Tried(items) => {
            let kept = keep(setting, inner, frame, items, keys, count)?;
            gather(setting.alloc, kept)
        }
    }
}

// The elements of which the condition is true.
#[cycle(eval)]
pub(crate) fn keep<'s, S: Source<C>, C>(
    setting: &Setting<'s, S>,
    inner: &'s Expr,
    frame: &Scope<'s>,
    items: Vec<Item<'s>>,
    keys: &mut Record,
    count: &mut C,
) -> Result<Vec<Item<'s>>, NoMemory>
    ensures value { IfOk result (λ v. map item v.items ≡ filter (λ x. is_true_tree (value_of
        (S.docs setting.now.source.now) (fields setting.now.params.now) (expression inner.now) (x ∷
        (scope_of frame.now)))) (map item items.entry.items)) }
    ensures keys { OnOk result (keys.new ≡ keys.old ++ flat_map (λ x. looked (S.docs
        setting.now.source.now) (fields setting.now.params.now) (expression inner.now) (x ∷
        (scope_of frame.now))) (map item items.entry.items)) }
{
    let mut out = Vec::new(setting.alloc);
    for i in items {
        let Ok(is_kept) = holds(setting, inner, frame, i.val(), keys, count) else {
            drop(i);
            return Err(NoMemory);
        };
        if is_kept {
            push(&mut out, i)?;
        } else {
            drop(i);
        }
    }
    Ok(out)
}

/// The borrowed values of which the condition is true.
#[cycle(eval)]
pub fn keep_lent<'s, S: Source<C>, C>(
    setting: &Setting<'s, S>,
    inner: &'s Expr,
    frame: &Scope<'s>,
    parts: Vec<&'s Val>,
    keys: &mut Record,
    count: &mut C,
) -> Result<Vec<&'s Val>, NoMemory>
    ensures value { IfOk result (λ v. map (λ r. tree r.now) v.items ≡ filter (λ x. is_true_tree
        (value_of (S.docs setting.now.source.now) (fields setting.now.params.now) (expression
        inner.now) (x ∷ (scope_of frame.now)))) (map (λ r. tree r.now) parts.entry.items)) }
    ensures keys { OnOk result (keys.new ≡ keys.old ++ flat_map (λ x. looked (S.docs
        setting.now.source.now) (fields setting.now.params.now) (expression inner.now) (x ∷
        (scope_of frame.now))) (map (λ r. tree r.now) parts.entry.items)) }
{
    let mut out = Vec::with_capacity(setting.alloc, parts.len())?;
    for part in parts {
        if holds(setting, inner, frame, part, keys, count)? {
            push(&mut out, part)?;
        }
    }
    Ok(out)
}

/// Whether the condition is true in the scope of the value in front.
#[cycle(eval)]
pub fn holds<S: Source<C>, C>(
    setting: &Setting<'_, S>,
    inner: &Expr,
    frame: &Scope<'_>,
    this: &Val,
    keys: &mut Record,
    count: &mut C,
) -> Result<bool, NoMemory>
    ensures value { IfOk result (λ b. b ≡ is_true_tree (value_of (S.docs setting.now.source.now)
        (fields setting.now.params.now) (expression inner.now) (tree this.now ∷ (scope_of
        frame.now)))) }
    ensures keys { OnOk result (keys.new ≡ keys.old ++ looked (S.docs setting.now.source.now)
        (fields setting.now.params.now) (expression inner.now) (tree this.now ∷ (scope_of
        frame.now))) }
{
    let near = Scope {
        this,
        parent: Some(frame),
    };
    is_met(&*setting, inner, &near, keys, count)
}

// The object of these entries in the scope of the object in front.
#[cycle(eval)]
#[tactic(auto, using(crate::proofs::Sets::projection))]
fn project<'s, S: Source<C>, C>(
    setting: &Setting<'_, S>,
    list: &[Entry],
    frame: &Scope<'_>,
    value: Got<'_>,
    keys: &mut Record,
    count: &mut C,
) -> Result<Got<'s>, NoMemory>
    ensures value { IfOk result (λ g. got g ≡ projected (entries_pairs (S.docs
        setting.now.source.now) (fields setting.now.params.now) (entries_of (map entry_of
        list.now)) ((got value.entry) ∷ (scope_of frame.now)) no_pairs) (got value.entry)) }
    ensures keys { OnOk result (keys.new ≡ keys.old ++ (if is_object_tree (got value.entry) then
        entries_looked (S.docs setting.now.source.now) (fields setting.now.params.now) (entries_of
        (map entry_of list.now)) ((got value.entry) ∷ (scope_of frame.now)) else [])) }
{
    let only = settle(setting.alloc, value)?;
    let this = only.val();
    if !is_object(this) {
        drop(only);
        return Ok(Got::Whole(Val::Null));
    }
    let near = Scope {
        this,
        parent: Some(frame),
    };
    let made = object(setting, list, &near, keys, count);
    drop(only);
    made
}

// A piped call: a list in the order of its elements' keys, which are found once each. The first
// elements are enough where there is a limit.
#[cycle(eval)]
#[tactic(auto, using(cs_parts::proofs::Trees::tree_of_null, cs_order::proofs::Enters::first_null))]
pub(crate) fn ordered<'s, S: Source<C>, C>(
    setting: &Setting<'s, S>,
    name: &Txt,
    order: &'s [OrderKey],
    limit: Option<usize>,
    frame: &Scope<'s>,
    value: Got<'s>,
    keys: &mut Record,
    count: &mut C,
) -> Result<Got<'s>, NoMemory>
    ensures value { IfOk result (λ g. got g ≡ first_elements limit (step_value (S.docs
        setting.now.source.now) (fields setting.now.params.now) (pipe name.now (keys_of (map
        order_key_of order.now))) (scope_of frame.now) (got value.entry))) }
    ensures keys { OnOk result (keys.new ≡ keys.old ++ step_looked (S.docs setting.now.source.now)
        (fields setting.now.params.now) (pipe name.now (keys_of (map order_key_of order.now)))
        (scope_of frame.now) (got value.entry)) }
{
    let Some(unsorted) = ordered_elements(setting.alloc, name.as_str(), value)? else {
        return Ok(Got::Whole(Val::Null));
    };
    let directions = directions(setting.alloc, order)?;
    let ranked = rank_each(
        &*setting,
        &*order,
        &directions,
        limit,
        &*frame,
        unsorted,
        keys,
        count,
    )?;
    list_in_order(setting.alloc, ranked, &directions, limit)
}

/// Each element beside the values of its keys, or those alone that are among the first, where there
/// is a limit; and what finding the keys looks up. Of an element that is seen to be none of the
/// first no more keys are found than that takes.
#[cycle(eval)]
#[tactic(auto, using(cs_order::proofs::Kept::can_keep_none))]
pub fn rank_each<'k, 's: 'k, S: Source<C>, C>(
    setting: &Setting<'k, S>,
    order: &'k [OrderKey],
    directions: &[bool],
    limit: Option<usize>,
    frame: &'k Scope<'k>,
    items: Vec<Item<'s>>,
    keys: &mut Record,
    count: &mut C,
) -> Result<Vec<Ranked<'k, 's>>, NoMemory>
    ensures value { IfOk result (λ v. map ranked_of v.items ≡ all_kept directions.now limit [] (map
        (ranked (λ x. keys_values (S.docs setting.now.source.now) (fields setting.now.params.now)
        (keys_of (map order_key_of order.now)) (x ∷ (scope_of frame.now)))) (map item
        items.entry.items))) }
    ensures keys { OnOk result (keys.new ≡ keys.old ++ flat_map (λ x. keys_looked (S.docs
        setting.now.source.now) (fields setting.now.params.now) (keys_of (map order_key_of
        order.now)) (x ∷ (scope_of frame.now))) (map item items.entry.items)) }
{
    // Where a key may look something up, each element's keys are found, since the record has them.
    let silent = are_quiet(order);
    let mut kept = Vec::new(setting.alloc);
    for i in items {
        rank_into(
            setting, order, directions, limit, silent, frame, i, &mut kept, keys, count,
        )?;
    }
    Ok(kept)
}

/// Puts an element beside the values of its keys into `kept`, the first `limit` (`None`: all) of
/// those so far in their order, where it is one of them. `silent` says that no key looks anything
/// up: then no more of them are found than it takes to see that the element is past the limit.
/// `NoMemory` where the allocator has no room for a value or for the element.
#[cycle(eval)]
pub fn rank_into<'k, 's: 'k, S: Source<C>, C>(
    setting: &Setting<'k, S>,
    order: &'k [OrderKey],
    directions: &[bool],
    limit: Option<usize>,
    silent: bool,
    frame: &'k Scope<'k>,
    one: Item<'s>,
    kept: &mut Vec<Ranked<'k, 's>>,
    keys: &mut Record,
    count: &mut C,
) -> Result<(), NoMemory>
    requires silent { silent ≡ true → quiet_keys (keys_of (map order_key_of order.now)) ≡ true }
    requires can { CanKeep directions.now limit (map ranked_of kept.now.items) }
    ensures kept { OnOk result (map ranked_of kept.new.items ≡ kept_with directions.now limit
        (ranked (λ x. keys_values (S.docs setting.now.source.now) (fields setting.now.params.now)
        (keys_of (map order_key_of order.now)) (x ∷ (scope_of frame.now))) (item one.entry)) (map
        ranked_of kept.old.items)) }
    ensures can { OnOk result (CanKeep directions.now limit (map ranked_of kept.new.items)) }
    ensures keys { OnOk result (keys.new ≡ keys.old ++ keys_looked (S.docs setting.now.source.now)
        (fields setting.now.params.now) (keys_of (map order_key_of order.now)) (item one.entry ∷
        scope_of frame.now)) }
{
    quiet_asks_nothing();
    if silent && is_past(directions, order, limit, frame, one.val(), kept) {
        drop(one);
        return Ok(());
    }
    let one = rank_one(setting, order, frame, one, keys, count)?;
    admit(kept, one, directions, limit)
}

// An element beside the values of its keys. Those of an element that was made are copied, since
// the element is moved.
#[cycle(eval)]
fn rank_one<'k, 's: 'k, S: Source<C>, C>(
    setting: &Setting<'k, S>,
    order: &'k [OrderKey],
    frame: &'k Scope<'k>,
    one: Item<'s>,
    keys: &mut Record,
    count: &mut C,
) -> Result<Ranked<'k, 's>, NoMemory>
    ensures value { IfOk result (λ r. ranked_of r ≡ ranked (λ x. keys_values (S.docs
        setting.now.source.now) (fields setting.now.params.now) (keys_of (map order_key_of
        order.now)) (x ∷ (scope_of frame.now))) (item one.entry)) }
    ensures keys { OnOk result (keys.new ≡ keys.old ++ keys_looked (S.docs setting.now.source.now)
        (fields setting.now.params.now) (keys_of (map order_key_of order.now)) (item one.entry ∷
        scope_of frame.now)) }
{
    match one {
        Item::Lent(val) => Ok(Ranked {
            by: rank_keys(setting, order, frame, val, keys, count)?,
            item: Item::Lent(val),
        }),
        Item::Made(val) => {
            let by = rank_keys(&*setting, &*order, &*frame, &val, keys, count)?;
            Ok(Ranked {
                by: owned(setting.alloc, by)?,
                item: Item::Made(val),
            })
        }
    }
}

/// The values of an order's keys in the scope of the element in front, and what finding them looks
/// up.
#[cycle(eval)]
pub fn rank_keys<'k, S: Source<C>, C>(
    setting: &Setting<'k, S>,
    order: &'k [OrderKey],
    frame: &'k Scope<'k>,
    this: &'k Val,
    keys: &mut Record,
    count: &mut C,
) -> Result<Vec<Item<'k>>, NoMemory>
    ensures value { IfOk result (λ v. map item v.items ≡ keys_values (S.docs
        setting.now.source.now) (fields setting.now.params.now) (keys_of (map order_key_of
        order.now)) (tree this.now ∷ (scope_of frame.now))) }
    ensures keys { OnOk result (keys.new ≡ keys.old ++ keys_looked (S.docs setting.now.source.now)
        (fields setting.now.params.now) (keys_of (map order_key_of order.now)) (tree this.now ∷
        (scope_of frame.now))) }
{
    let near = Scope {
        this,
        parent: Some(frame),
    };
    order_keys(setting, order, &near, keys, count)
}

// The values of an order's keys.
#[cycle(eval)]
#[tactic(auto, using(cs_syntax::proofs::Views::key_seen))]
fn order_keys<'k, S: Source<C>, C>(
    setting: &Setting<'k, S>,
    order: &'k [OrderKey],
    frame: &Scope<'k>,
    keys: &mut Record,
    count: &mut C,
) -> Result<Vec<Item<'k>>, NoMemory>
    ensures value { IfOk result (λ v. map item v.items ≡ keys_values (S.docs
        setting.now.source.now) (fields setting.now.params.now) (keys_of (map order_key_of
        order.now)) (scope_of frame.now)) }
    ensures keys { OnOk result (keys.new ≡ keys.old ++ keys_looked (S.docs setting.now.source.now)
        (fields setting.now.params.now) (keys_of (map order_key_of order.now)) (scope_of
        frame.now)) }
{
    let mut out = Vec::with_capacity(setting.alloc, order.len())?;
    let mut behind = order;
    while let Some((first, later)) = behind.split_first() {
        let key = settled(setting, &first.key, frame, keys, count)?;
        push(&mut out, key.made_if_small(setting.alloc)?)?;
        behind = later;
    }
    Ok(out)
}
