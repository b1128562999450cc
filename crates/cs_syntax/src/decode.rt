//! What a text token means.
ghost use Rattle.std.specs.Prelude.{◌≡◌, ◌≢◌, ◌+◌, ◌<◌, ◌≤◌, IfOk, IsSome, Some, length, slice_index};
ghost use Rattle.cs_syntax.specs.Ends.{past_plain};
ghost use Rattle.cs_syntax.specs.Escapes.{decoded};

use crate::escape::escape_at;
use cs_value::{NoMemory, Txt};
use std::alloc::Global;

// The place of the quote or the `\` that comes first behind `at`, or the end of the text.
fn past_plain(bytes: &[u8], at: usize, quote: u8) -> usize
    requires { at < length bytes.now }
    ensures same { result ≡ past_plain bytes.now quote (at + 1) }
    ensures from { at < result }
    ensures to { result ≤ length bytes.now }
    ensures stops { result < length bytes.now → slice_index bytes.now result ≢ quote
        → slice_index bytes.now result ≡ 92 }
{
    let mut end = at + 1;
    while end < bytes.len() && bytes[end] != quote && bytes[end] != b'\\' {
        end += 1;
    }
    end
}

/// The text that the source of a text token means: what stands between its quotes, with the escapes
/// read. `NoMemory` where the allocator has no room for it.
pub fn unescape(alloc: Global, source: &str) -> Result<Txt, NoMemory>
    requires { IsSome (decoded source.now) }
    ensures { IfOk result (λ text. decoded source.now ≡ Some text) }
{
    let bytes = source.as_bytes();
    let quote = bytes[0];
    let mut text = String::new(alloc);
    let mut at = 1;
    while bytes[at] != quote {
        if bytes[at] == b'\\' {
            let Some((character, end)) = escape_at(bytes, at + 1) else {
                unreachable!()
            };
            text.push(character)?;
            at = end;
        } else {
            let end = past_plain(bytes, at, quote);
            text.push_str(&source[at..end])?;
            at = end;
        }
    }
    Ok(Txt::from_string(text))
}
