//! The sources that a library in memory holds.
ghost use Rattle.std.specs.Prelude.{◌≡◌, ◌<◌, ◌≤◌, [], ◌++◌, length, take, drop, Option, IfSome, min, ◌+◌, ◌-◌, ◌^◌, ◌==◌};
ghost use Rattle.std.specs.List.{list_any};
ghost use Rattle.std.specs.Option.{option_map};
ghost use Rattle.cs_io.specs.Held.{found};

use crate::slot::Slot;
use cs_value::Txt;
use std::alloc::Global;

// The bytes of the first file of the name.
fn find<'a>(files: &'a [(Txt, Vec<u8>)], name: &str) -> Option<&'a Vec<u8>>
    ensures { option_map (λ b. b.now.items) result ≡ found name.now files.now }
{
    for file in files {
        if name == file.0.as_str() {
            return Some(&file.1);
        }
    }
    None
}

// A copy of the bytes of the name, of which nothing is read yet. None where no file has the name,
// or the allocator has no room.
pub fn copy_held(alloc: Global, files: &[(Txt, Vec<u8>)], name: &str) -> Option<Slot>
    ensures { IfSome result (λ slot.
        (slot.at ≡ 0) × (found name.now files.now ≡ Option.Some slot.bytes.items)) }
{
    let bytes = find(files, name)?;
    let bytes = Vec::from_slice(alloc, bytes.as_slice()).ok()?;
    Some(Slot { bytes, at: 0 })
}

// Counts a call, and says whether it is one that is to fail.
pub fn is_failing(calls: &mut u64, fail: &[u64]) -> bool
    ensures counted { calls.new ≡ min (calls.old + 1) (2 ^ 64 - 1) }
    ensures listed { result ≡ list_any (λ n. n == calls.new) fail.now }
{
    *calls = calls.saturating_add(1);
    fail.contains(calls)
}

// Gives the next bytes, as many as the piece and the limit take.
pub fn take_from(slot: &mut Slot, piece: &mut [u8], limit: usize) -> usize
    requires { 0 < limit }
    ensures bytes { drop slot.old.at slot.old.bytes.items
        ≡ take result piece.new ++ drop slot.new.at slot.new.bytes.items }
    ensures bound { result ≤ length piece.new }
    ensures end { result ≡ 0 → 0 < length piece.old → drop slot.old.at slot.old.bytes.items ≡ [] }
{
    let left = slot.bytes.len() - slot.at;
    let count = left.min(limit).min(piece.len());
    piece[..count].copy_from_slice(&slot.bytes[slot.at..slot.at + count]);
    slot.at += count;
    count
}
