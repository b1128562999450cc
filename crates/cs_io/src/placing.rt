//! A thing put into the first place that is free.
ghost use Rattle.std.specs.Prelude.{◌≡◌, [], ◌∷◌, ◌++◌, Option, length, IfSome, IfNone, false};
ghost use Rattle.cs_io.specs.Held.{IsPlaced};
ghost use Rattle.cs_io.specs.Names.{is_open};

use crate::library::Asked;
use cs_value::Txt;
use std::alloc::Global;

// Keeps an item under the next number, and the name that was asked for with this number. None, with
// nothing changed, where no number is free or the allocator has no room.
pub fn place<T: Drop>(
    alloc: Global,
    opened: &mut Vec<T>,
    names: &mut Vec<Asked>,
    name: &str,
    item: T,
) -> Option<u32>
    requires { IsPlaced names.old.items opened.old.items }
    ensures fresh { IfSome result (λ n. is_open names.old.items n ≡ false) }
    ensures number { IfSome result (λ n. n ≡ length opened.old.items) }
    ensures item { IfSome result (λ _. opened.new.items ≡ opened.old.items ++ item ∷ []) }
    ensures added { IfSome result (λ n. names.new.items
        ≡ names.old.items ++ record { name = name.now; number = Option.Some n } ∷ []) }
    ensures kept { IfNone result
        ((names.new.items ≡ names.old.items) × (opened.new.items ≡ opened.old.items)) }
    ensures placed { IsPlaced names.new.items opened.new.items }
{
    let number = u32::try_from(opened.len()).ok()?;
    let name = Txt::copy_of(alloc, name).ok()?;
    opened.push(item).ok()?;
    if names
        .push(Asked {
            name,
            number: Some(number),
        })
        .is_err()
    {
        opened.pop();
        return None;
    }
    Some(number)
}
