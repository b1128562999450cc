//! Calls of functions: `coalesce` and `select` look only at the arguments that count.
ghost use Rattle.std.specs.Prelude.{◌≡◌, ◌++◌, IfOk, OnOk, map, option_map};
ghost use Rattle.cs_value.specs.View.{fields};
ghost use Rattle.cs_syntax.specs.Expression.{arguments_of, call as call_node};
ghost use Rattle.cs_syntax.specs.View.{expression, argument_of};
ghost use Rattle.cs_view.specs.Scopes.{scope_of};
ghost use Rattle.cs_meaning.specs.Values.{value as value_of, argument_value, arguments_values, coalesced, selected};
ghost use Rattle.cs_meaning.specs.Looked.{looked, argument_looked, arguments_looked, coalesced_looked, selected_looked};
ghost use Rattle.cs_parts.specs.Parts.{got};
ghost use Rattle.cs_expr.specs.Choosing.{chosen, chosen_looked};

use crate::expressions::{eval, is_met};
use crate::setting::Setting;
use cs_levels::{applied_got, refers_to};
use cs_parts::{Callee, Got, Source, callee_of, is_null, push};
use cs_syntax::{Arg, Expr};
use cs_value::{NoMemory, Val};
use cs_view::{Record, Scope};

// A call.
#[cycle(eval)]
pub(crate) fn call<'s, S: Source<C>, C>(
    setting: &Setting<'s, S>,
    name: &str,
    args: &'s [Arg],
    frame: &Scope<'s>,
    keys: &mut Record,
    count: &mut C,
) -> Result<Got<'s>, NoMemory>
    ensures value { IfOk result (λ g. got g ≡ value_of (S.docs setting.now.source.now) (fields
        setting.now.params.now) (call_node name.now (arguments_of (map argument_of args.now)))
        (scope_of frame.now)) }
    ensures keys { OnOk result (keys.new ≡ keys.old ++ looked (S.docs setting.now.source.now)
        (fields setting.now.params.now) (call_node name.now (arguments_of (map argument_of
        args.now))) (scope_of frame.now)) }
{
    match callee_of(name) {
        Callee::Coalesce => coalesce(setting, args, frame, keys, count),
        Callee::Select => select(setting, args, frame, keys, count),
        Callee::References => {
            let values = arguments(setting, args, frame, keys, count)?;
            refers_to(setting.alloc, values, frame)
        }
        Callee::Values(function) => {
            let values = arguments(setting, args, frame, keys, count)?;
            applied_got(setting.alloc, function, values)
        }
    }
}

// The first argument that is not null. Those behind it are not looked at.
#[cycle(eval)]
#[tactic(auto, using(cs_parts::proofs::Trees::tree_of_null))]
fn coalesce<'s, S: Source<C>, C>(
    setting: &Setting<'s, S>,
    args: &'s [Arg],
    frame: &Scope<'s>,
    keys: &mut Record,
    count: &mut C,
) -> Result<Got<'s>, NoMemory>
    ensures value { IfOk result (λ g. got g ≡ coalesced (S.docs setting.now.source.now) (fields
        setting.now.params.now) (arguments_of (map argument_of args.now)) (scope_of frame.now)) }
    ensures keys { OnOk result (keys.new ≡ keys.old ++ coalesced_looked (S.docs
        setting.now.source.now) (fields setting.now.params.now) (arguments_of (map argument_of
        args.now)) (scope_of frame.now)) }
{
    let mut behind = args;
    while let Some((first, later)) = behind.split_first() {
        let here = argument(setting, first, frame, keys, count)?;
        if !is_null(&here) {
            return Ok(here);
        }
        drop(here);
        behind = later;
    }
    Ok(Got::Whole(Val::Null))
}

// What stands behind the first condition that is true, or behind none. Nothing behind it is looked
// at.
#[cycle(eval)]
#[tactic(auto, using(cs_parts::proofs::Trees::tree_of_null))]
fn select<'s, S: Source<C>, C>(
    setting: &Setting<'s, S>,
    args: &'s [Arg],
    frame: &Scope<'s>,
    keys: &mut Record,
    count: &mut C,
) -> Result<Got<'s>, NoMemory>
    ensures value { IfOk result (λ g. got g ≡ selected (S.docs setting.now.source.now) (fields
        setting.now.params.now) (arguments_of (map argument_of args.now)) (scope_of frame.now)) }
    ensures keys { OnOk result (keys.new ≡ keys.old ++ selected_looked (S.docs
        setting.now.source.now) (fields setting.now.params.now) (arguments_of (map argument_of
        args.now)) (scope_of frame.now)) }
{
    let mut behind = args;
    while let Some((first, later)) = behind.split_first() {
        if let Some(expr) = choice(setting, first, frame, keys, count)? {
            return eval(setting, expr, frame, keys, count);
        }
        behind = later;
    }
    Ok(Got::Whole(Val::Null))
}

// What an argument of `select` stands for: nothing where its condition is not true.
#[cycle(eval)]
#[tactic(auto, unfolding(cs_syntax::specs::View::argument_of, cs_syntax::specs::View::expression))]
fn choice<'s, S: Source<C>, C>(
    setting: &Setting<'s, S>,
    arg: &'s Arg,
    frame: &Scope<'s>,
    keys: &mut Record,
    count: &mut C,
) -> Result<Option<&'s Expr>, NoMemory>
    ensures value { IfOk result (λ o. option_map (λ e. expression e.now) o ≡ chosen (S.docs
        setting.now.source.now) (fields setting.now.params.now) (argument_of arg.now) (scope_of
        frame.now)) }
    ensures keys { OnOk result (keys.new ≡ keys.old ++ chosen_looked (S.docs
        setting.now.source.now) (fields setting.now.params.now) (argument_of arg.now) (scope_of
        frame.now)) }
{
    match arg {
        Arg::One(expr) => Ok(Some(expr)),
        Arg::When(condition, expr) => {
            if is_met(setting, condition, frame, keys, count)? {
                Ok(Some(expr))
            } else {
                Ok(None)
            }
        }
    }
}

// The values of all arguments.
#[cycle(eval)]
pub(crate) fn arguments<'s, S: Source<C>, C>(
    setting: &Setting<'s, S>,
    args: &'s [Arg],
    frame: &Scope<'s>,
    keys: &mut Record,
    count: &mut C,
) -> Result<Vec<Got<'s>>, NoMemory>
    ensures value { IfOk result (λ v. map got v.items ≡ arguments_values (S.docs
        setting.now.source.now) (fields setting.now.params.now) (arguments_of (map argument_of
        args.now)) (scope_of frame.now)) }
    ensures keys { OnOk result (keys.new ≡ keys.old ++ arguments_looked (S.docs
        setting.now.source.now) (fields setting.now.params.now) (arguments_of (map argument_of
        args.now)) (scope_of frame.now)) }
{
    let mut out = Vec::with_capacity(setting.alloc, args.len())?;
    let mut behind = args;
    while let Some((first, later)) = behind.split_first() {
        push(&mut out, argument(setting, first, frame, keys, count)?)?;
        behind = later;
    }
    Ok(out)
}

// The value of an argument, null of one under a condition.
#[cycle(eval)]
#[tactic(auto, using(crate::proofs::Sets::null), unfolding(cs_syntax::proofs::Open::of_argument))]
fn argument<'s, S: Source<C>, C>(
    setting: &Setting<'s, S>,
    arg: &'s Arg,
    frame: &Scope<'s>,
    keys: &mut Record,
    count: &mut C,
) -> Result<Got<'s>, NoMemory>
    ensures value { IfOk result (λ g. got g ≡ argument_value (S.docs setting.now.source.now)
        (fields setting.now.params.now) (argument_of arg.now) (scope_of frame.now)) }
    ensures keys { OnOk result (keys.new ≡ keys.old ++ argument_looked (S.docs
        setting.now.source.now) (fields setting.now.params.now) (argument_of arg.now) (scope_of
        frame.now)) }
{
    match arg {
        Arg::One(expr) => eval(setting, expr, frame, keys, count),
        Arg::When(_, _) => Ok(Got::Whole(Val::Null)),
    }
}
