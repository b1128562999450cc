//! Alterations at a location of a value, in place.
ghost use Rattle.std.specs.Prelude.{◌≡◌, OnOk};
ghost use Rattle.cs_value.specs.Tree.{trees};
ghost use Rattle.cs_value.specs.View.{tree, fields, list_tree};
ghost use Rattle.cs_alter.specs.Within.{changed, removed, update_pair, update_item};
ghost use Rattle.cs_alter.specs.Alterations.{altered};

use crate::alteration::Alteration;
use crate::perform::perform;
use cs_jsonmatch::Part;
use cs_value::{Fields, NoMemory, Txt, Val};
use std::alloc::Global;

/// Does an alteration at what stands at the location. Nothing happens where nothing stands there.
/// `NoMemory` where the allocator has no room for what is new; parts of the value may be lost then.
/// It takes a call for each part of the location.
#[cycle(alter)]
pub fn alter(
    alloc: Global,
    val: &mut Val,
    location: &[Part],
    alteration: &Alteration,
) -> Result<(), NoMemory>
    ensures { OnOk result (tree val.new
        ≡ changed location.now (altered alteration.now) (tree val.old)) }
{
    let Some((part, rest)) = location.split_first() else {
        return perform(alloc, val, alteration);
    };
    match part {
        Part::Name(name) => {
            if let Val::Obj(object) = val {
                return alter_member(alloc, object, name, rest, alteration);
            }
        }
        Part::Pos(index) => {
            if let Val::List(items) = val {
                return alter_item(alloc, items, *index, rest, alteration);
            }
        }
    }
    Ok(())
}

// The member is taken out, changed and put back.
#[cycle(alter)]
fn alter_member(
    alloc: Global,
    object: &mut Fields,
    name: &Txt,
    rest: &[Part],
    alteration: &Alteration,
) -> Result<(), NoMemory>
    ensures { OnOk result (fields object.new
        ≡ update_pair name.now (changed rest.now (altered alteration.now)) (fields object.old)) }
{
    // This says that the names ascend, by which the member goes back to where it was.
    let _count = object.pairs.len();
    let Some(mut inner) = object.take(name.as_str()) else {
        return Ok(());
    };
    alter(alloc, &mut inner, rest, alteration)?;
    object.set(name.copy(alloc)?, inner)
}

#[cycle(alter)]
fn alter_item(
    alloc: Global,
    items: &mut Vec<Val>,
    index: usize,
    rest: &[Part],
    alteration: &Alteration,
) -> Result<(), NoMemory>
    ensures { OnOk result (trees (list_tree items.new.items)
        ≡ update_item index (changed rest.now (altered alteration.now))
        (trees (list_tree items.old.items))) }
{
    match items.get_mut(index) {
        Some(inner) => alter(alloc, inner, rest, alteration),
        None => Ok(()),
    }
}

/// Removes what stands at the location. Nothing happens where nothing stands there. The location
/// without parts is the whole value, which becomes null. `NoMemory` where the allocator has no room
/// for a name; parts of the value may be lost then.
pub fn remove(alloc: Global, val: &mut Val, location: &[Part]) -> Result<(), NoMemory>
    ensures { OnOk result (tree val.new ≡ removed location.now (tree val.old)) }
{
    let Some((part, before)) = location.split_last() else {
        *val = Val::Null;
        return Ok(());
    };
    let alteration = Alteration::Remove(part.copy(alloc)?);
    alter(alloc, val, before, &alteration)
}
