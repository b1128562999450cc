//! Chains: how steps are joined, over the values that their bases give.
ghost use Rattle.std.specs.Prelude.{◌≡◌, ◌++◌, IfOk, OnOk, map, flat_map, true, false};
ghost use Rattle.cs_value.specs.View.{fields};
ghost use Rattle.cs_syntax.specs.Expression.{steps_of};
ghost use Rattle.cs_syntax.specs.View.{expression, step_of};
ghost use Rattle.cs_view.specs.Scopes.{scope_of};
ghost use Rattle.cs_meaning.specs.Joining.{gives_array};
ghost use Rattle.cs_meaning.specs.Values.{pipes_value, rest_value, step_value};
ghost use Rattle.cs_meaning.specs.Looked.{rest_looked, pipes_looked, step_looked};
ghost use Rattle.cs_parts.specs.Parts.{got, item};
ghost use Rattle.cs_parts.specs.Kinds.{kinds_of};
ghost use Rattle.cs_expr.specs.Fits.{ReachedFits, reached_weight};
ghost use Rattle.cs_expr.specs.Stops.{is_whole, stop, stop_value, stop_looked, stopped};
ghost use Rattle.cs_expr.specs.Weight.{steps_weight};
ghost use Rattle.cs_levels.specs.Nodes.{steps_in};
ghost use Rattle.cs_trail.specs.Trail.{is_trail};
ghost use Rattle.cs_expr.specs.Starts.{start_value, start_looked, enter_value, enter_looked, once, once_looked};

use crate::expressions::eval;
use crate::setting::Setting;
use crate::steps::{keep_lent, one_step, ordered};
use cs_levels::{
    Reached, Remaining, Task, base_entrance, entering, filter_of_all, look_up, next_pipe,
    next_task, push_got,
};
use cs_order::first_asked;
use cs_parts::{
    Entrance, Got, Item, Kind, Source, Way, behind, elements, ends, entrance_of, first_kind,
    form_of, gather, gives_array, is_over, kinds, turn, way_of,
};
use cs_syntax::{Expr, Step};
use cs_trail::{follow, is_trail};
use cs_value::{NoMemory, Val};
use cs_view::{Record, Scope};

// A base and its steps.
#[cycle(eval)]
pub(crate) fn chain<'s, S: Source<C>, C>(
    setting: &Setting<'s, S>,
    base: &'s Expr,
    steps: &'s [Step],
    frame: &Scope<'s>,
    keys: &mut Record,
    count: &mut C,
) -> Result<Got<'s>, NoMemory>
    ensures value { IfOk result (λ g. got g ≡ pipes_value (S.docs setting.now.source.now) (fields
        setting.now.params.now) (steps_of (map step_of steps.now)) (scope_of frame.now)
        (start_value (S.docs setting.now.source.now) (fields setting.now.params.now) (expression
        base.now) (steps_of (map step_of steps.now)) (scope_of frame.now))) }
    ensures keys { OnOk result (keys.new ≡ keys.old ++ (start_looked (S.docs
        setting.now.source.now) (fields setting.now.params.now) (expression base.now) (steps_of
        (map step_of steps.now)) (scope_of frame.now) ++ pipes_looked (S.docs
        setting.now.source.now) (fields setting.now.params.now) (steps_of (map step_of steps.now))
        (scope_of frame.now) (start_value (S.docs setting.now.source.now) (fields
        setting.now.params.now) (expression base.now) (steps_of (map step_of steps.now)) (scope_of
        frame.now)))) }
{
    if is_trail(steps) && !gives_array(base) {
        return trail(setting, base, steps, frame, keys, count);
    }
    joined(setting, base, steps, frame, keys, count)
}

// A base that gives no array, with names and dereferences behind it.
#[cycle(eval)]
fn trail<'s, S: Source<C>, C>(
    setting: &Setting<'s, S>,
    base: &'s Expr,
    steps: &'s [Step],
    frame: &Scope<'s>,
    keys: &mut Record,
    count: &mut C,
) -> Result<Got<'s>, NoMemory>
    requires trail { is_trail (steps_of (map step_of steps.now)) ≡ true }
    requires single { gives_array (expression base.now) ≡ false }
    ensures value { IfOk result (λ g. got g ≡ pipes_value (S.docs setting.now.source.now) (fields
        setting.now.params.now) (steps_of (map step_of steps.now)) (scope_of frame.now)
        (start_value (S.docs setting.now.source.now) (fields setting.now.params.now) (expression
        base.now) (steps_of (map step_of steps.now)) (scope_of frame.now))) }
    ensures keys { OnOk result (keys.new ≡ keys.old ++ (start_looked (S.docs
        setting.now.source.now) (fields setting.now.params.now) (expression base.now) (steps_of
        (map step_of steps.now)) (scope_of frame.now) ++ pipes_looked (S.docs
        setting.now.source.now) (fields setting.now.params.now) (steps_of (map step_of steps.now))
        (scope_of frame.now) (start_value (S.docs setting.now.source.now) (fields
        setting.now.params.now) (expression base.now) (steps_of (map step_of steps.now)) (scope_of
        frame.now)))) }
{
    let value = eval(setting, base, frame, keys, count)?;
    follow(setting.alloc, steps, setting.source, value, keys, count)
}

// Any base and steps. The kinds of all rests are found once.
#[cycle(eval)]
fn joined<'s, S: Source<C>, C>(
    setting: &Setting<'s, S>,
    base: &'s Expr,
    steps: &'s [Step],
    frame: &Scope<'s>,
    keys: &mut Record,
    count: &mut C,
) -> Result<Got<'s>, NoMemory>
    ensures value { IfOk result (λ g. got g ≡ pipes_value (S.docs setting.now.source.now) (fields
        setting.now.params.now) (steps_of (map step_of steps.now)) (scope_of frame.now)
        (start_value (S.docs setting.now.source.now) (fields setting.now.params.now) (expression
        base.now) (steps_of (map step_of steps.now)) (scope_of frame.now))) }
    ensures keys { OnOk result (keys.new ≡ keys.old ++ (start_looked (S.docs
        setting.now.source.now) (fields setting.now.params.now) (expression base.now) (steps_of
        (map step_of steps.now)) (scope_of frame.now) ++ pipes_looked (S.docs
        setting.now.source.now) (fields setting.now.params.now) (steps_of (map step_of steps.now))
        (scope_of frame.now) (start_value (S.docs setting.now.source.now) (fields
        setting.now.params.now) (expression base.now) (steps_of (map step_of steps.now)) (scope_of
        frame.now)))) }
{
    let kinds = kinds(setting.alloc, steps)?;
    let whole = Remaining {
        steps,
        kinds: kinds.as_slice(),
    };
    let first = start(setting, base, whole, frame, keys, count)?;
    let value = climb(setting, first, frame, keys, count)?;
    pipes(setting, steps, kinds.as_slice(), frame, value, keys, count)
}

// How far a chain has come when its base is found. Of a `*` with a filter the documents that have
// the filter's key are looked up, and no others.
#[cycle(eval)]
fn start<'s, 'k, S: Source<C>, C>(
    setting: &Setting<'s, S>,
    base: &'s Expr,
    rest: Remaining<'s, 'k>,
    frame: &Scope<'s>,
    keys: &mut Record,
    count: &mut C,
) -> Result<Reached<'s, 'k>, NoMemory>
    requires { rest.kinds.now ≡ kinds_of (map step_of rest.steps.now) }
    ensures value { IfOk result (λ r. stop_value (S.docs setting.now.source.now) (fields
        setting.now.params.now) (scope_of frame.now) (stopped r) ≡ start_value (S.docs
        setting.now.source.now) (fields setting.now.params.now) (expression base.now) (steps_in
        rest.entry) (scope_of frame.now)) }
    ensures keys { IfOk result (λ r. keys.new ++ stop_looked (S.docs setting.now.source.now)
        (fields setting.now.params.now) (scope_of frame.now) (stopped r) ≡ keys.old ++ start_looked
        (S.docs setting.now.source.now) (fields setting.now.params.now) (expression base.now)
        (steps_in rest.entry) (scope_of frame.now)) }
    ensures fits { IfOk result (λ r. ReachedFits (steps_weight (steps_in rest.entry)) r) }
{
    if let Some((condition, later)) = filter_of_all(base, rest) {
        let found = look_up(
            setting.alloc,
            condition,
            frame,
            setting.params,
            setting.source,
            keys,
            count,
        )?;
        let kept = keep_lent(setting, condition, frame, found, keys, count)?;
        let entrance = entrance_of(first_kind(later.kinds));
        return Ok(entering(entrance, Got::Parts(kept), later));
    }
    let value = eval(setting, base, frame, keys, count)?;
    let entrance = base_entrance(base, first_kind(rest.kinds));
    Ok(entering(entrance, value, rest))
}

/// An array enters a rest.
pub fn enter<'s, S: Source<C>, C>(
    setting: &Setting<'s, S>,
    steps: &'s [Step],
    kinds: &[Kind],
    frame: &Scope<'s>,
    value: Got<'s>,
    keys: &mut Record,
    count: &mut C,
) -> Result<Got<'s>, NoMemory>
    requires { kinds.now ≡ kinds_of (map step_of steps.now) }
    ensures value { IfOk result (λ g. got g ≡ enter_value (S.docs setting.now.source.now) (fields
        setting.now.params.now) (steps_of (map step_of steps.now)) (scope_of frame.now) (got
        value.entry)) }
    ensures keys { OnOk result (keys.new ≡ keys.old ++ enter_looked (S.docs setting.now.source.now)
        (fields setting.now.params.now) (steps_of (map step_of steps.now)) (scope_of frame.now)
        (got value.entry)) }
{
    let entrance = entrance_of(first_kind(kinds));
    let first = entering(entrance, value, Remaining { steps, kinds });
    climb(setting, first, frame, keys, count)
}

/// A value goes through a rest as it is, also where it is an array.
pub fn through<'s, S: Source<C>, C>(
    setting: &Setting<'s, S>,
    steps: &'s [Step],
    kinds: &[Kind],
    frame: &Scope<'s>,
    value: Got<'s>,
    keys: &mut Record,
    count: &mut C,
) -> Result<Got<'s>, NoMemory>
    requires { kinds.now ≡ kinds_of (map step_of steps.now) }
    ensures value { IfOk result (λ g. got g ≡ rest_value (S.docs setting.now.source.now) (fields
        setting.now.params.now) (steps_of (map step_of steps.now)) (scope_of frame.now) (got
        value.entry)) }
    ensures keys { OnOk result (keys.new ≡ keys.old ++ rest_looked (S.docs setting.now.source.now)
        (fields setting.now.params.now) (steps_of (map step_of steps.now)) (scope_of frame.now)
        (got value.entry)) }
{
    let whole = Reached::Whole(value, Remaining { steps, kinds });
    climb(setting, whole, frame, keys, count)
}

// How far a chain comes in a rest while one value goes through its steps.
#[cycle(eval)]
fn step_on<'s, 'k, S: Source<C>, C>(
    setting: &Setting<'s, S>,
    rest: Remaining<'s, 'k>,
    frame: &Scope<'s>,
    value: Got<'s>,
    keys: &mut Record,
    count: &mut C,
) -> Result<Reached<'s, 'k>, NoMemory>
    requires { rest.kinds.now ≡ kinds_of (map step_of rest.steps.now) }
    ensures stop { IfOk result (λ r. stopped r ≡ stop (S.docs setting.now.source.now) (fields
        setting.now.params.now) (steps_in rest.entry) (scope_of frame.now) (got value.entry)) }
    ensures keys { IfOk result (λ r. keys.new ++ stop_looked (S.docs setting.now.source.now)
        (fields setting.now.params.now) (scope_of frame.now) (stopped r) ≡ keys.old ++ rest_looked
        (S.docs setting.now.source.now) (fields setting.now.params.now) (steps_in rest.entry)
        (scope_of frame.now) (got value.entry)) }
    ensures fits { IfOk result (λ r. ReachedFits (steps_weight (steps_in rest.entry)) r) }
{
    let mut here = value;
    let mut left = rest;
    while let Some((first, steps)) = left.steps.split_first() {
        let kinds = behind(left.kinds);
        let kind = first_kind(kinds);
        let way = way_of(form_of(first), kind);
        if ends(way) {
            return Ok(Reached::End(here));
        }
        here = once(setting, first, way, frame, here, keys, count)?;
        left = Remaining { steps, kinds };
        let entrance = turn(way, entrance_of(kind));
        if !is_whole(entrance) {
            return Ok(entering(entrance, here, left));
        }
    }
    Ok(Reached::End(here))
}

// Whether a value goes through a rest as it is, and not its elements one by one.
fn is_whole(entrance: Entrance) -> bool
    ensures { result ≡ is_whole entrance }
{
    matches!(entrance, Entrance::Whole)
}

// What comes of the place that a chain has reached. A list whose elements go on one by one becomes
// an open level, so that no chain, however long, takes more of the stack.
#[cycle(eval)]
fn climb<'s, 'k, S: Source<C>, C>(
    setting: &Setting<'s, S>,
    first: Reached<'s, 'k>,
    frame: &Scope<'s>,
    keys: &mut Record,
    count: &mut C,
) -> Result<Got<'s>, NoMemory>
    requires { ReachedFits (reached_weight first) first }
    ensures value { IfOk result (λ g. got g ≡ stop_value (S.docs setting.now.source.now) (fields
        setting.now.params.now) (scope_of frame.now) (stopped first.entry)) }
    ensures keys { OnOk result (keys.new ≡ keys.old ++ stop_looked (S.docs setting.now.source.now)
        (fields setting.now.params.now) (scope_of frame.now) (stopped first.entry)) }
{
    let mut levels = Vec::new(setting.alloc);
    let mut here = first;
    loop {
        match next_task(setting.alloc, here, &mut levels)? {
            Task::Done(value) => return Ok(value),
            Task::Go(value, rest) => {
                here = step_on(setting, rest, frame, value, keys, count)?;
            }
        }
    }
}

/// What stands from the first piped call on. A rest that looks at the first few elements alone is
/// given no others.
#[cycle(eval)]
pub fn pipes<'s, S: Source<C>, C>(
    setting: &Setting<'s, S>,
    steps: &'s [Step],
    kinds: &[Kind],
    frame: &Scope<'s>,
    value: Got<'s>,
    keys: &mut Record,
    count: &mut C,
) -> Result<Got<'s>, NoMemory>
    requires { kinds.now ≡ kinds_of (map step_of steps.now) }
    ensures value { IfOk result (λ g. got g ≡ pipes_value (S.docs setting.now.source.now) (fields
        setting.now.params.now) (steps_of (map step_of steps.now)) (scope_of frame.now) (got
        value.entry)) }
    ensures keys { OnOk result (keys.new ≡ keys.old ++ pipes_looked (S.docs setting.now.source.now)
        (fields setting.now.params.now) (steps_of (map step_of steps.now)) (scope_of frame.now)
        (got value.entry)) }
{
    let mut here = value;
    let mut left = Remaining { steps, kinds };
    while let Some(pipe) = next_pipe(left) {
        let later = pipe.later;
        let limit = first_asked(later.steps);
        let list = ordered(
            setting, pipe.name, pipe.order, limit, frame, here, keys, count,
        )?;
        let first = entering(entrance_of(first_kind(later.kinds)), list, later);
        here = climb(setting, first, frame, keys, count)?;
        left = later;
    }
    Ok(here)
}

// One step, mapped where the way says so.
#[cycle(eval)]
#[tactic(auto, using(crate::proofs::Sets::once))]
fn once<'s, S: Source<C>, C>(
    setting: &Setting<'s, S>,
    step: &'s Step,
    way: Way,
    frame: &Scope<'s>,
    value: Got<'s>,
    keys: &mut Record,
    count: &mut C,
) -> Result<Got<'s>, NoMemory>
    ensures value { IfOk result (λ g. got g ≡ once way (step_value (S.docs setting.now.source.now)
        (fields setting.now.params.now) (step_of step.now) (scope_of frame.now)) (got value.entry)) }
    ensures keys { OnOk result (keys.new ≡ keys.old ++ once_looked way (step_looked (S.docs
        setting.now.source.now) (fields setting.now.params.now) (step_of step.now) (scope_of
        frame.now)) (got value.entry)) }
{
    if !is_over(way) {
        return one_step(setting, step, frame, value, keys, count);
    }
    let Some(items) = elements(setting.alloc, value)? else {
        return Ok(Got::Whole(Val::Null));
    };
    let given = step_of_each(setting, step, frame, items, keys, count)?;
    gather(setting.alloc, given)
}

// What the step makes of each element.
#[cycle(eval)]
fn step_of_each<'s, S: Source<C>, C>(
    setting: &Setting<'s, S>,
    step: &'s Step,
    frame: &Scope<'s>,
    items: Vec<Item<'s>>,
    keys: &mut Record,
    count: &mut C,
) -> Result<Vec<Item<'s>>, NoMemory>
    ensures value { IfOk result (λ v. map item v.items ≡ map (step_value (S.docs
        setting.now.source.now) (fields setting.now.params.now) (step_of step.now) (scope_of
        frame.now)) (map item items.entry.items)) }
    ensures keys { OnOk result (keys.new ≡ keys.old ++ flat_map (step_looked (S.docs
        setting.now.source.now) (fields setting.now.params.now) (step_of step.now) (scope_of
        frame.now)) (map item items.entry.items)) }
{
    let mut out = Vec::with_capacity(setting.alloc, items.len())?;
    for i in items {
        let given = one_step(setting, step, frame, i.into_got(), keys, count)?;
        push_got(setting.alloc, &mut out, given)?;
    }
    Ok(out)
}
