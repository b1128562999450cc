//! What stands between tokens: blanks and comments.
ghost use Rattle.std.specs.Prelude.{◌≡◌, ◌<◌, ◌≤◌, drop, length, slice_index};
ghost use Rattle.cs_syntax.specs.Lex.{is_blank, opens_comment, past_blank};

// The byte at the place, 0 past the end of the text.
pub(crate) fn byte_at(bytes: &[u8], at: usize) -> u8
    ensures same { result ≡ slice_index bytes.now at }
    ensures inside { 0 < result → at < length bytes.now }
{
    match bytes.get(at) {
        Some(byte) => *byte,
        None => 0,
    }
}

fn is_blank(byte: u8) -> bool
    ensures { result ≡ is_blank byte }
{
    byte == b' ' || byte == b'\t' || byte == b'\n' || byte == b'\r'
}

fn opens_comment(bytes: &[u8], at: usize) -> bool
    requires { at < length bytes.now }
    ensures { result ≡ opens_comment (drop at bytes.now) }
{
    bytes[at] == b'/' && byte_at(bytes, at + 1) == b'/'
}

// The first place from `at` on that is not between tokens.
pub(crate) fn past_blank(bytes: &[u8], at: usize) -> usize
    requires { at ≤ length bytes.now }
    ensures same { result ≡ past_blank bytes.now at }
    ensures from { at ≤ result }
    ensures to { result ≤ length bytes.now }
{
    let mut end = at;
    let mut in_comment = false;
    while end < bytes.len() {
        let byte = bytes[end];
        let opens = opens_comment(bytes, end);
        if !(is_blank(byte) || in_comment || opens) {
            break;
        }
        in_comment = byte != b'\n' && (in_comment || opens);
        end += 1;
    }
    end
}
