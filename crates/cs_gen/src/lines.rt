//! Which line of the generated script stands where.
ghost use Rattle.std.specs.Prelude.{◌≡◌, ◌≤◌, ◌-◌, IfOk, IfSome, option_map, slice_get};
ghost use Rattle.cs_gen.specs.Generated.{generated};
ghost use Rattle.cs_gen.specs.Lines.{text_of, IsInside};

use crate::text::write;
use cs_value::NoMemory;
use std::alloc::Global;

/// A line of the script, by its kind.
#[derive(Clone, Copy)]
pub(crate) enum Line {
    /// The listener.
    Listen,
    /// The live query.
    Live,
    /// The document of the number is created.
    Created(u32),
    /// The author of the number is deleted.
    Deleted(u32),
    /// The documents are counted.
    Count,
}

// The line of the number, counted from one.
fn planned(n: u32, number: u32) -> Option<Line>
    requires counted { 1 ≤ number }
    requires few { n ≤ 100000 }
    ensures line { option_map text_of result ≡ slice_get (generated n) (number - 1) }
    ensures inside { IfSome result IsInside }
{
    if number == 1 {
        return Some(Line::Listen);
    }
    if number == 2 {
        return Some(Line::Live);
    }
    let place = number - 3;
    if place < n {
        return Some(Line::Created(place));
    }
    let behind = place - n;
    let authors = (n + 9) / 10;
    if behind < authors {
        return Some(Line::Deleted(behind * 10));
    }
    if behind == authors {
        return Some(Line::Count);
    }
    None
}

/// The line of the number, counted from one, of the script of so many documents, without its
/// newline: `None` exactly past the end. `NoMemory` where the allocator has no room for it.
pub fn gen_line(alloc: Global, n: u32, number: u32) -> Result<Option<Vec<u8>>, NoMemory>
    requires counted { 1 ≤ number }
    requires few { n ≤ 100000 }
    ensures { IfOk result (λ line. option_map (λ bytes. bytes.items) line
        ≡ slice_get (generated n) (number - 1)) }
{
    match planned(n, number) {
        Some(line) => Ok(Some(write(alloc, line)?.into_bytes())),
        None => Ok(None),
    }
}
