//! The one value of an argument that has to be one.
ghost use Rattle.std.specs.Prelude.{◌≡◌, map};
ghost use Rattle.cs_meaning.specs.Operators.{sole};
ghost use Rattle.cs_parts.specs.Parts.{got};

use cs_parts::Got;
use cs_value::Val;

/// The one value of these, null where there is none or there are more.
#[tactic(auto, using(cs_parts::proofs::Trees::tree_of_null))]
pub fn sole<'s>(values: Vec<Got<'s>>) -> Got<'s>
    ensures { got result ≡ sole (map got values.entry.items) }
{
    let mut left = values.into_iter();
    let Some(only) = left.next() else {
        return Got::Whole(Val::Null);
    };
    match left.next() {
        None => only,
        Some(_) => Got::Whole(Val::Null),
    }
}
