//! The ids of transactions.
ghost use Rattle.std.specs.Prelude.{◌≡◌, codes, IfOk};
ghost use Rattle.std.specs.List.{list_all};
ghost use Rattle.cs_body.specs.Body.{begins, is_tx_byte, is_tx_id, tx_of_line};

use cs_value::{NoMemory, Txt};
use std::alloc::Global;

fn is_tx_byte(byte: u8) -> bool
    ensures { result ≡ is_tx_byte byte }
{
    (b'A' <= byte && byte <= b'Z')
        || (b'a' <= byte && byte <= b'z')
        || (b'0' <= byte && byte <= b'9')
        || byte == b'_'
        || byte == b'-'
}

fn all_tx_bytes(bytes: &[u8]) -> bool
    ensures { result ≡ list_all is_tx_byte bytes.now }
{
    for byte in bytes {
        if !is_tx_byte(*byte) {
            return false;
        }
    }
    true
}

fn begins_with_dash(bytes: &[u8]) -> bool
    ensures { result ≡ begins (codes "-") bytes.now }
{
    match bytes {
        [first, ..] => *first == b'-',
        _ => false,
    }
}

fn begins_as_made(bytes: &[u8]) -> bool
    ensures { result ≡ begins (codes "tx-") bytes.now }
{
    match bytes {
        [first, second, third, ..] => *first == b't' && *second == b'x' && *third == b'-',
        _ => false,
    }
}

// Whether a client may give the text as a transaction's id.
pub(crate) fn is_tx_id(text: &str) -> bool
    ensures { result ≡ is_tx_id text.now }
{
    let bytes = text.as_bytes();
    1 <= bytes.len()
        && bytes.len() <= 64
        && all_tx_bytes(bytes)
        && !begins_with_dash(bytes)
        && !begins_as_made(bytes)
}

// The id of the transaction of a line, where the client gives none.
pub(crate) fn tx_of_line(alloc: Global, line: u32) -> Result<Txt, NoMemory>
    ensures { IfOk result (λ id. id ≡ tx_of_line line) }
{
    match format!(in alloc; "tx-{line}") {
        Ok(id) => Ok(Txt::from_string(id)),
        Err(_) => Err(NoMemory),
    }
}
