//! Readings of an answer, and the steps that take a part of it.
ghost use Rattle.std.specs.Prelude.{◌≡◌, option_map};
ghost use Rattle.cs_meaning.specs.Operators.{is_true, is_false, reference_of as reference_in_tree};
ghost use Rattle.cs_value.specs.Words.{is_object, list_of, of_list, is_null, field};
ghost use Rattle.cs_value.specs.View.{tree};
ghost use Rattle.cs_parts.specs.Parts.{got};

use crate::answer::Got;
use cs_value::{Txt, Val};

/// Whether the value is `true`.
pub fn is_true(whole: &Got<'_>) -> bool
    ensures { result ≡ is_true (got whole.now) }
{
    match whole {
        Got::Part(Val::Bool(b)) => *b,
        Got::Whole(Val::Bool(b)) => *b,
        _ => false,
    }
}

/// Whether the value is `false`.
pub fn is_false(val: &Val) -> bool
    ensures { result ≡ is_false (tree val.now) }
{
    match val {
        Val::Bool(b) => !*b,
        _ => false,
    }
}

/// Whether the value is null.
pub fn is_null(whole: &Got<'_>) -> bool
    ensures { result ≡ is_null (got whole.now) }
{
    match whole {
        Got::Part(Val::Null) => true,
        Got::Whole(Val::Null) => true,
        _ => false,
    }
}

/// Whether the value is an object.
pub fn is_object(val: &Val) -> bool
    ensures { result ≡ is_object (tree val.now) }
{
    match val {
        Val::Obj(_) => true,
        _ => false,
    }
}

/// The attribute of the name, null where there is none: borrowed where the value is.
#[tactic(auto, using(crate::proofs::Trees::field_of_object, crate::proofs::Trees::tree_of_null))]
pub fn field<'s>(whole: Got<'s>, name: &str) -> Got<'s>
    ensures { got result ≡ field name.now (got whole.entry) }
{
    match whole {
        Got::Part(val) => match val.field(name) {
            Some(part) => Got::Part(part),
            None => Got::Whole(Val::Null),
        },
        Got::Parts(_parts) => Got::Whole(Val::Null),
        Got::Whole(Val::Obj(mut object)) => match object.take(name) {
            Some(part) => Got::Whole(part),
            None => Got::Whole(Val::Null),
        },
        Got::Whole(_other) => Got::Whole(Val::Null),
    }
}

/// The same as [`field`], with a look at the place first at which the name was found last.
#[tactic(auto, using(crate::proofs::Trees::field_of_object, crate::proofs::Trees::tree_of_null))]
pub fn attribute<'s>(whole: Got<'s>, name: &Txt) -> Got<'s>
    ensures { got result ≡ field name.now (got whole.entry) }
{
    match whole {
        Got::Part(val) => match val.attribute(name) {
            Some(part) => Got::Part(part),
            None => Got::Whole(Val::Null),
        },
        _ => field(whole, name.as_str()),
    }
}

/// `[]`: a list itself, null of anything else.
#[tactic(auto, using(crate::proofs::Sets::each))]
pub fn each<'s>(whole: Got<'s>) -> Got<'s>
    ensures { got result ≡ of_list list_of (got whole.entry) }
{
    match whole {
        Got::Part(Val::List(_vals)) => whole,
        Got::Part(_other) => Got::Whole(Val::Null),
        Got::Parts(parts) => Got::Parts(parts),
        Got::Whole(Val::List(vals)) => Got::Whole(Val::List(vals)),
        Got::Whole(_other) => Got::Whole(Val::Null),
    }
}

/// The text that a value refers by: `None` exactly where it is no object, has a `_dataset`, or no
/// text as `_ref`.
#[tactic(auto, using(crate::proofs::Trees::reference_of_object))]
pub fn reference_of(val: &Val) -> Option<&Txt>
    ensures { option_map (λ t. t.now) result ≡ reference_in_tree (tree val.now) }
{
    let Val::Obj(object) = val else {
        return None;
    };
    match object.reference() {
        Some(text) if object.get("_dataset").is_none() => Some(text),
        _ => None,
    }
}
