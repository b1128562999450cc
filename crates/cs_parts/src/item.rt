//! One value, or an element of a list, borrowed or made.
ghost use Rattle.std.specs.Prelude.{◌≡◌, IfOk, OnOk, ◌++◌, ◌∷◌, []};
ghost use Rattle.cs_value.specs.View.{tree};
ghost use Rattle.cs_parts.specs.Parts.{got, item};

use crate::answer::Got;
use cs_value::{MOST_INSIDE, NoMemory, Val};
use std::alloc::Global;

/// An element of a list, or one value: borrowed, or made.
#[derive(Drop)]
pub enum Item<'s> {
    Lent(&'s Val),
    Made(Val),
}

impl<'s> Item<'s> {
    /// The value.
    pub fn val(&self) -> &Val
        ensures { tree result.now ≡ item self.now }
    {
        match self {
            Item::Lent(val) => *val,
            Item::Made(val) => val,
        }
    }

    /// The value, copied where it is borrowed.
    pub fn into_val(self, alloc: Global) -> Result<Val, NoMemory>
        ensures { IfOk result (λ v. tree v ≡ item self.entry) }
    {
        match self {
            Item::Lent(val) => val.copy(alloc),
            Item::Made(val) => Ok(val),
        }
    }

    /// The same value, which the item itself holds where it is small: who compares many items then
    /// follows no reference. The copy of a small value takes no memory.
    pub fn made_if_small(self, alloc: Global) -> Result<Item<'s>, NoMemory>
        ensures { IfOk result (λ i. item i ≡ item self.entry) }
    {
        match self {
            Item::Lent(val) => {
                if is_small(val) {
                    Ok(Item::Made(val.copy(alloc)?))
                } else {
                    Ok(Item::Lent(val))
                }
            }
            Item::Made(val) => Ok(Item::Made(val)),
        }
    }

    /// The answer that this is.
    pub fn into_got(self) -> Got<'s>
        ensures { got result ≡ item self.entry }
    {
        match self {
            Item::Lent(val) => Got::Part(val),
            Item::Made(val) => Got::Whole(val),
        }
    }
}

// Whether the value has no part of its own in memory.
fn is_small(val: &Val) -> bool {
    match val {
        Val::Null | Val::Bool(_) | Val::Num(_) => true,
        Val::Text(text) => text.as_str().len() <= MOST_INSIDE,
        Val::List(_) | Val::Obj(_) => false,
    }
}

/// The item last in the list.
pub fn push<T: Drop>(list: &mut Vec<T>, last: T) -> Result<(), NoMemory>
    ensures { OnOk result (list.new.items ≡ list.old.items ++ last ∷ []) }
{
    match list.push(last) {
        Ok(()) => Ok(()),
        Err(_) => Err(NoMemory),
    }
}
