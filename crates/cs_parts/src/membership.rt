//! What `in` and `references` say, where the values of their sides are known.
ghost use Rattle.std.specs.Prelude.{◌≡◌, ◌++◌, IfOk, OnOk, map, filter_map, flat_map};
ghost use Rattle.std.specs.List.{list_any};
ghost use Rattle.cs_value.specs.View.{tree};
ghost use Rattle.cs_value.specs.Words.{as_text};
ghost use Rattle.cs_ops.specs.Equal.{equal};
ghost use Rattle.cs_ops.specs.Operators.{within};
ghost use Rattle.cs_meaning.specs.Operators.{in_path, references, targets};
ghost use Rattle.cs_parts.specs.Parts.{got};

use crate::answer::Got;
use crate::item::push;
use cs_func::{path_matches, refers_to_some};
use cs_ops::{equal, within};
use cs_value::{NoMemory, Txt, Val};
use std::alloc::Global;

/// `left in right`: whether some element of a list is equal to the value, null where there is no
/// list.
#[tactic(auto, using(crate::proofs::Trees::within_parts))]
pub fn among(left: &Val, right: Got<'_>) -> Val
    ensures { tree result ≡ within (tree left.now) (got right.entry) }
{
    match right {
        Got::Part(val) => within(left, val),
        Got::Parts(parts) => Val::Bool(has_equal(&parts, left)),
        Got::Whole(val) => within(left, &val),
    }
}

// Whether some borrowed value is equal to this one.
fn has_equal(parts: &[&Val], val: &Val) -> bool
    ensures { result ≡ list_any (λ t. equal t (tree val.now)) (map (λ r. tree r.now) parts.now) }
{
    for part in parts {
        if equal(part, val) {
            return true;
        }
    }
    false
}

/// `left in path(pattern)`: whether the pattern matches, null where either is no text.
#[tactic(auto, using(crate::proofs::Trees::tree_of_null))]
pub fn in_path(left: &Val, pattern: &Val) -> Val
    ensures { tree result ≡ in_path (tree left.now) (tree pattern.now) }
{
    match (left, pattern) {
        (Val::Text(text), Val::Text(pattern)) => {
            Val::Bool(path_matches(pattern.as_str(), text.as_str()))
        }
        _ => Val::Null,
    }
}

/// `references`: whether the value, or one inside it, refers to one of the texts that the arguments
/// give. One walk through the value finds it.
pub fn references(alloc: Global, arguments: &[Got<'_>], this: &Val) -> Result<Val, NoMemory>
    ensures { IfOk result (λ v. tree v ≡ references (map got arguments.now) (tree this.now)) }
{
    let sought = targets_of(alloc, arguments)?;
    Ok(Val::Bool(refers_to_some(this, &sought)))
}

// The texts that all arguments give, in order.
fn targets_of<'v>(alloc: Global, arguments: &'v [Got<'_>]) -> Result<Vec<&'v Txt>, NoMemory>
    ensures { IfOk result (λ v. map (λ t. t.now) v.items ≡ flat_map targets (map got
        arguments.now)) }
{
    let mut found = Vec::new(alloc);
    for argument in arguments {
        add_argument(&mut found, argument)?;
    }
    Ok(found)
}

// The texts that one argument gives.
#[tactic(auto, using(crate::proofs::Trees::targets_of_parts))]
fn add_argument<'v>(found: &mut Vec<&'v Txt>, argument: &'v Got<'_>) -> Result<(), NoMemory>
    ensures { OnOk result (map (λ t. t.now) found.new.items
        ≡ map (λ t. t.now) found.old.items ++ targets (got argument.now)) }
{
    match argument {
        Got::Part(val) => add_targets(found, val),
        Got::Parts(parts) => add_texts_lent(found, parts),
        Got::Whole(val) => add_targets(found, val),
    }
}

// The texts that a value gives: itself, or those among its elements.
#[tactic(auto, using(crate::proofs::Trees::targets_of_list))]
fn add_targets<'v>(found: &mut Vec<&'v Txt>, val: &'v Val) -> Result<(), NoMemory>
    ensures { OnOk result (map (λ t. t.now) found.new.items
        ≡ map (λ t. t.now) found.old.items ++ targets (tree val.now)) }
{
    match val {
        Val::Text(text) => push(found, text),
        Val::List(vals) => add_texts(found, vals),
        _ => Ok(()),
    }
}

// The texts among the elements of a list.
fn add_texts<'v>(found: &mut Vec<&'v Txt>, vals: &'v [Val]) -> Result<(), NoMemory>
    ensures { OnOk result (map (λ t. t.now) found.new.items
        ≡ map (λ t. t.now) found.old.items ++ filter_map as_text (map tree vals.now)) }
{
    for val in vals {
        if let Val::Text(text) = val {
            push(found, text)?;
        }
    }
    Ok(())
}

// The texts among borrowed elements.
fn add_texts_lent<'v>(found: &mut Vec<&'v Txt>, vals: &[&'v Val]) -> Result<(), NoMemory>
    ensures { OnOk result (map (λ t. t.now) found.new.items
        ≡ map (λ t. t.now) found.old.items ++ filter_map as_text (map (λ r. tree r.now) vals.now)) }
{
    for val in vals {
        if let Val::Text(text) = *val {
            push(found, text)?;
        }
    }
    Ok(())
}
