//! The text of a list from the texts of its values, none of which is walked again.
ghost use Rattle.std.specs.Prelude.{◌≡◌, ◌++◌, List, OnOk, IfOk, map, false};
ghost use Rattle.serde_json.specs.Written.{comma_if};
ghost use Rattle.cs_value.specs.Tree.{Tree};
ghost use Rattle.cs_value.specs.Words.{list_of};
ghost use Rattle.cs_json.specs.Text.{items_joined, json_text};

use cs_value::NoMemory;
use std::alloc::Global;

/// What keeps the compact text of a value.
pub trait HasText {
    ghost use Rattle.std.specs.Prelude.{◌≡◌, List, ℕ};

    ghost text: { Self → List ℕ };

    /// The text.
    fn text(&self) -> &[u8]
        ensures { result.now ≡ text self.now };
}

/// The compact text of a list, of whose values these keep the compact texts: each is copied as it
/// stands. `NoMemory` where the allocator has no room for it.
pub fn write_list<T: HasText>(alloc: Global, values: &[T]) -> Result<Vec<u8>, NoMemory>
    ensures { (ts : List Tree) → map T.text values.now ≡ map json_text ts
        → IfOk result (λ b. b.items ≡ json_text (list_of ts)) }
{
    let mut out = Vec::with_capacity(alloc, room_for(values))?;
    out.push(b'[')?;
    write_items(values, &mut out)?;
    Ok(out)
}

// How many bytes the texts take with a comma or a bracket behind each, and a bracket before them.
fn room_for<T: HasText>(values: &[T]) -> usize {
    let mut room = 2usize;
    for value in values {
        room = room.saturating_add(value.text().len()).saturating_add(1);
    }
    room
}

// Appends the text of one value, behind a comma where another stands before it.
fn write_item(later: bool, text: &[u8], out: &mut Vec<u8>) -> Result<(), NoMemory>
    ensures { OnOk result (out.new.items ≡ out.old.items ++ (comma_if later ++ text.now)) }
{
    if later {
        out.push(b',')?;
    }
    Ok(out.extend_from_slice(text)?)
}

// Appends the texts of the values and the bracket behind them.
fn write_items<T: HasText>(values: &[T], out: &mut Vec<u8>) -> Result<(), NoMemory>
    ensures { OnOk result
        (out.new.items ≡ out.old.items ++ items_joined false (map T.text values.now)) }
{
    let mut later = false;
    for value in values {
        write_item(later, value.text(), out)?;
        later = true;
    }
    Ok(out.push(b']')?)
}
