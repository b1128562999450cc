//! How far a text token reaches.
ghost use Rattle.std.specs.Prelude.{◌≡◌, ◌+◌, ◌<◌, IfSome, length, slice_index};
ghost use Rattle.cs_syntax.specs.Ends.{piece_end, text_end};

use crate::escape::escape_at;

// The place behind the byte or the escape at `at`.
fn piece_end(bytes: &[u8], at: usize) -> Option<usize>
    requires { at < length bytes.now }
    ensures same { result ≡ piece_end bytes.now at }
    ensures from { IfSome result (λ end. at < end) }
{
    if bytes[at] != b'\\' {
        return Some(at + 1);
    }
    let (_character, end) = escape_at(bytes, at + 1)?;
    Some(end)
}

// The place behind the text whose quote stands at `at`.
pub(crate) fn text_end(bytes: &[u8], at: usize) -> Option<usize>
    requires { at < length bytes.now }
    ensures { result ≡ text_end bytes.now (slice_index bytes.now at) (at + 1) }
{
    let quote = bytes[at];
    let mut end = at + 1;
    while end < bytes.len() {
        if bytes[end] == quote {
            return Some(end + 1);
        }
        end = piece_end(bytes, end)?;
    }
    None
}
