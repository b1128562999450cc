//! Which texts are ids.
ghost use Rattle.std.specs.Prelude.{◌≡◌};
ghost use Rattle.std.specs.List.{list_all};
ghost use Rattle.cs_value.specs.Id.{is_id, is_id_byte};

fn is_id_byte(byte: u8) -> bool
    ensures { result ≡ is_id_byte byte }
{
    (b'A' <= byte && byte <= b'Z')
        || (b'a' <= byte && byte <= b'z')
        || (b'0' <= byte && byte <= b'9')
        || byte == b'.'
        || byte == b'_'
        || byte == b'-'
}

fn all_id_bytes(bytes: &[u8]) -> bool
    ensures { result ≡ list_all is_id_byte bytes.now }
{
    for byte in bytes {
        if !is_id_byte(*byte) {
            return false;
        }
    }
    true
}

/// Whether the text has the form of an id: 1 to 128 bytes of ASCII letters, digits, `.`, `_` and
/// `-`, the first of them neither `.` nor `-`. The ids of documents have it, and so have the names
/// of live queries and listeners.
pub fn is_id(text: &str) -> bool
    ensures { result ≡ is_id text.now }
{
    let bytes = text.as_bytes();
    let Some(first) = bytes.first() else {
        return false;
    };
    *first != b'.' && *first != b'-' && bytes.len() <= 128 && all_id_bytes(bytes)
}
