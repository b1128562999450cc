//! What the name of a function and a number say as they are written.
ghost use Rattle.std.specs.Prelude.{◌≡◌, ◌<◌, ◌≤◌, IfSome, MatchOption, Some, option_map, pos};
ghost use Rattle.cs_syntax.specs.Faults.{is_path};
ghost use Rattle.cs_syntax.specs.Functions.{without_global};
ghost use Rattle.cs_syntax.specs.Numbers.{has_exponent, has_fraction, whole_number, written_number};

/// The bytes of a function's name without `global::` in front, where it stands there.
pub fn without_global(name: &str) -> &[u8]
    ensures { result.now ≡ without_global name.now }
{
    let bytes = name.as_bytes();
    if bytes.starts_with("global::".as_bytes()) {
        &bytes[8..]
    } else {
        bytes
    }
}

/// Whether a name is `path`, which stands on the right of `in` alone.
pub fn is_path(name: &str) -> bool
    ensures { result ≡ is_path name.now }
{
    name == "path"
}

/// Whether a number as it is written has an exponent.
pub fn has_exponent(number: &str) -> bool
    ensures { result ≡ has_exponent number.now }
{
    let bytes = number.as_bytes();
    bytes.contains(&b'e') || bytes.contains(&b'E')
}

/// Whether a number as it is written has a fraction.
pub fn has_fraction(number: &str) -> bool
    ensures { result ≡ has_fraction number.now }
{
    number.as_bytes().contains(&b'.')
}

/// The number that digits write: `None` exactly where it is not below 2^64. It stops at the first
/// digit with which it is not.
pub fn whole_number(digits: &str) -> Option<u64>
    ensures { MatchOption result (18446744073709551615 < whole_number digits.now)
        (λ n. n ≡ whole_number digits.now) }
{
    let mut value: u128 = 0;
    for digit in digits.as_bytes() {
        value = value * 10 + u128::from(digit.saturating_sub(b'0'));
        if value > 18446744073709551615 {
            return None;
        }
    }
    Some(value as u64)
}

// The number that is written, by one walk over digits alone: `None` too where it is so large that
// one more digit might pass 2^63-1.
fn short_number(number: &str) -> Option<u64>
    ensures written { IfSome result (λ n. written_number number.now ≡ Some n) }
    ensures below { IfSome result (λ n. n ≤ 9223372036854775807) }
{
    let mut value: u64 = 0;
    for byte in number.as_bytes() {
        if *byte < b'0' || *byte > b'9' || value > 922337203685477579 {
            return None;
        }
        value = value * 10 + u64::from(*byte - b'0');
    }
    Some(value)
}

/// The number that is written: `None` exactly where it has an exponent or a fraction, or is above
/// 2^63-1.
pub fn written_number(number: &str) -> Option<i64>
    ensures { result ≡ option_map pos (written_number number.now) }
{
    if let Some(short) = short_number(number) {
        return Some(short as i64);
    }
    if has_exponent(number) || has_fraction(number) {
        return None;
    }
    let whole = whole_number(number)?;
    if whole > 9223372036854775807 {
        return None;
    }
    Some(whole as i64)
}
