//! The order of texts.
ghost use Rattle.std.specs.Prelude.{◌≡◌};
ghost use Rattle.cs_value.specs.Entries.{compares};

use std::cmp::Ordering;

/// How the one text stands to the other, by their bytes, as [`str::cmp`] says it. Texts that are
/// sought mostly differ in their first bytes, which are compared without a call.
pub fn compared(one: &str, other: &str) -> Ordering
    ensures { result ≡ compares one.now other.now }
{
    match (one.as_bytes().first(), other.as_bytes().first()) {
        (Some(a), Some(b)) if *a != *b => a.cmp(b),
        _ => one.cmp(other),
    }
}
