//! Documents that an expression looks up.
ghost use Rattle.std.specs.Prelude.{◌≡◌, ◌++◌, ◌∷◌, [], IfOk, OnOk, option_map};
ghost use Rattle.cs_value.specs.Words.{list_of};
ghost use Rattle.cs_view.specs.declared.key.Key.TheVariants.{All};
ghost use Rattle.cs_meaning.specs.Looked.{id_looked};
ghost use Rattle.cs_meaning.specs.Operators.{reference_of as reference_in_tree, sought};
ghost use Rattle.cs_parts.specs.Parts.{got};

use crate::{Got, Source, reference_of, settle};
use cs_value::{NoMemory, Txt, Val};
use cs_view::{Key, Record};
use std::alloc::Global;

/// All documents, and the key of all is added to the record.
#[tactic(auto, using(crate::proofs::Shapes::every_one))]
pub fn all<'s, S: Source<C>, C>(
    alloc: Global,
    source: &'s S,
    keys: &mut Record,
    count: &mut C,
) -> Result<Got<'s>, NoMemory>
    ensures value { IfOk result (λ g. got g ≡ list_of (S.docs source.now)) }
    ensures keys { OnOk result (keys.new ≡ keys.old ++ All ∷ []) }
{
    keys.add(Key::All)?;
    Ok(Got::Parts(source.select(alloc, &Key::All, count)?))
}

// The document of an id, null where there is no id or no document has it.
#[tactic(auto, using(crate::proofs::Trees::tree_of_null))]
fn find<'s, S: Source<C>, C>(
    alloc: Global,
    id: Option<&Txt>,
    source: &'s S,
    keys: &mut Record,
    count: &mut C,
) -> Result<Got<'s>, NoMemory>
    ensures value { IfOk result (λ g. got g ≡ sought (S.docs source.now) (option_map (λ t. t.now)
        id.entry)) }
    ensures keys { OnOk result (keys.new ≡ keys.old ++ id_looked (option_map (λ t. t.now)
        id.entry)) }
{
    let Some(id) = id else {
        return Ok(Got::Whole(Val::Null));
    };
    keys.add(Key::Id(id.copy(alloc)?))?;
    match source.by_id(id, count) {
        Some(doc) => Ok(Got::Part(doc)),
        None => Ok(Got::Whole(Val::Null)),
    }
}

/// The document that a value refers to, null where there is none. Its key is added to the record,
/// whether or not it is found.
pub fn deref<'s, S: Source<C>, C>(
    alloc: Global,
    value: Got<'_>,
    source: &'s S,
    keys: &mut Record,
    count: &mut C,
) -> Result<Got<'s>, NoMemory>
    ensures value { IfOk result (λ g. got g ≡ sought (S.docs source.now) (reference_in_tree (got
        value.entry))) }
    ensures keys { OnOk result (keys.new ≡ keys.old ++ id_looked (reference_in_tree (got
        value.entry))) }
{
    let only = settle(alloc, value)?;
    find(alloc, reference_of(only.val()), source, keys, count)
}
