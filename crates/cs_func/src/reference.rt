//! References inside a value.
ghost use Rattle.std.specs.Prelude.{◌≡◌, map};
ghost use Rattle.std.specs.List.{list_any};
ghost use Rattle.std.specs.Str.{bytes_eq};
ghost use Rattle.cs_value.specs.Tree.{trees};
ghost use Rattle.cs_value.specs.View.{tree, fields, list_tree};
ghost use Rattle.cs_func.specs.Refers.{refers, refers_to_one, some_refers_to_one, some_pair_refers_to_one};

use cs_value::{Fields, Txt, Val};

/// Whether the value, or a value inside it, is an object whose `_ref` is the target. Nothing inside
/// an object that has a text `_ref` is looked at. It takes no memory.
#[tactic(auto, using(crate::proofs::Targets::only_target))]
pub fn refers(val: &Val, target: &Txt) -> bool
    ensures { result ≡ refers target.now (tree val.now) }
{
    refers_to_one(val, &[target])
}

/// Whether [`refers`] holds of the value and some target. One walk through the value finds it. It
/// takes no memory.
#[tactic(auto, using(crate::proofs::Targets::one_of_targets))]
pub fn refers_to_some(val: &Val, targets: &[&Txt]) -> bool
    ensures { result ≡ list_any (λ target. refers target (tree val.now))
        (map (λ t. t.now) targets.now) }
{
    refers_to_one(val, targets)
}

#[cycle(refers_to_one)]
fn refers_to_one(val: &Val, targets: &[&Txt]) -> bool
    ensures { result ≡ refers_to_one (map (λ t. t.now) targets.now) (tree val.now) }
{
    match val {
        Val::List(items) => some_refers(items, targets),
        Val::Obj(object) => match object.reference() {
            Some(text) => is_among(text, targets),
            None => some_pair_refers(object, targets),
        },
        _ => false,
    }
}

#[cycle(refers_to_one)]
fn some_refers(items: &Vec<Val>, targets: &[&Txt]) -> bool
    ensures { result ≡ some_refers_to_one (map (λ t. t.now) targets.now) (trees (list_tree
        items.now.items)) }
{
    for item in items {
        if refers_to_one(item, targets) {
            return true;
        }
    }
    false
}

#[cycle(refers_to_one)]
fn some_pair_refers(object: &Fields, targets: &[&Txt]) -> bool
    ensures { result ≡ some_pair_refers_to_one (map (λ t. t.now) targets.now) (fields object.now) }
{
    for (_, member) in object.pairs.iter() {
        if refers_to_one(member, targets) {
            return true;
        }
    }
    false
}

fn is_among(text: &Txt, targets: &[&Txt]) -> bool
    ensures { result ≡ list_any (bytes_eq text.now) (map (λ t. t.now) targets.now) }
{
    for target in targets {
        if text.as_str() == target.as_str() {
            return true;
        }
    }
    false
}
