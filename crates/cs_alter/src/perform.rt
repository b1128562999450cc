//! An alteration done at a value itself.
ghost use Rattle.std.specs.Prelude.{◌≡◌, OnOk};
ghost use Rattle.cs_value.specs.Tree.{trees};
ghost use Rattle.cs_value.specs.View.{tree, list_tree};
ghost use Rattle.cs_alter.specs.Within.{given, drop_member, drop_item, recount};
ghost use Rattle.cs_alter.specs.Alterations.{counted, altered};

use crate::alteration::{Alteration, Change, Gift};
use crate::give::give;
use crate::insert::insert_here;
use cs_jsonmatch::Part;
use cs_value::{NoMemory, Val};
use std::alloc::Global;
use std::mem;

fn give_here(alloc: Global, val: &mut Val, gift: &Gift) -> Result<(), NoMemory>
    ensures { OnOk result (tree val.new
        ≡ given gift.now.names.items (tree gift.now.new) (tree val.old)) }
{
    let old = mem::replace(val, Val::Null);
    *val = give(alloc, old, &gift.names, gift.new.copy(alloc)?)?;
    Ok(())
}

fn count_here(val: &mut Val, change: Change)
    ensures { tree val.new ≡ recount (counted change) (tree val.old) }
{
    if let Val::Num(number) = val {
        let number = *number;
        *val = match change {
            Change::Add(n) => match number.checked_add(n) {
                Some(sum) => Val::Num(sum),
                None => Val::Null,
            },
            Change::Subtract(n) => match number.checked_sub(n) {
                Some(difference) => Val::Num(difference),
                None => Val::Null,
            },
        };
    }
}

fn remove_item(items: &mut Vec<Val>, index: usize)
    ensures { trees (list_tree items.new.items)
        ≡ drop_item index (trees (list_tree items.old.items)) }
{
    if index < items.len() {
        drop(items.remove(index));
    }
}

fn remove_here(val: &mut Val, part: &Part)
    ensures { tree val.new ≡ drop_member part.now (tree val.old) }
{
    match part {
        Part::Name(name) => {
            if let Val::Obj(object) = val {
                drop(object.take(name.as_str()));
            }
        }
        Part::Pos(index) => {
            if let Val::List(items) = val {
                remove_item(items, *index);
            }
        }
    }
}

pub(crate) fn perform(alloc: Global, val: &mut Val, alteration: &Alteration) -> Result<(), NoMemory>
    ensures { OnOk result (tree val.new ≡ altered alteration.now (tree val.old)) }
{
    match alteration {
        Alteration::Give(gift) => give_here(alloc, val, gift),
        Alteration::Remove(part) => {
            remove_here(val, part);
            Ok(())
        }
        Alteration::Count(change) => {
            count_here(val, *change);
            Ok(())
        }
        Alteration::Insert(insertion) => insert_here(alloc, val, insertion),
    }
}
