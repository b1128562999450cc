//! How far a number reaches.
ghost use Rattle.std.specs.Prelude.{◌≡◌, ◌<◌, ◌≤◌, length};
ghost use Rattle.cs_syntax.specs.Ends.{exponent_end, fraction_end, number_end, past_digits, past_sign};

use crate::blank::byte_at;

// The place behind the digits from `at` on.
pub(crate) fn past_digits(bytes: &[u8], at: usize) -> usize
    requires { at ≤ length bytes.now }
    ensures same { result ≡ past_digits bytes.now at }
    ensures from { at ≤ result }
    ensures to { result ≤ length bytes.now }
{
    let mut end = at;
    while end < bytes.len() && bytes[end].is_ascii_digit() {
        end += 1;
    }
    end
}

// The place behind a `+` or `-` at `at`, or `at` where none stands there.
fn past_sign(bytes: &[u8], at: usize) -> usize
    requires { at ≤ length bytes.now }
    ensures same { result ≡ past_sign bytes.now at }
    ensures to { result ≤ length bytes.now }
{
    let byte = byte_at(bytes, at);
    if byte == b'+' || byte == b'-' {
        return at + 1;
    }
    at
}

// The end of the exponent at `at`, or `at` where none stands there.
fn exponent_end(bytes: &[u8], at: usize) -> usize
    requires { at ≤ length bytes.now }
    ensures same { result ≡ exponent_end bytes.now at }
    ensures to { result ≤ length bytes.now }
{
    let byte = byte_at(bytes, at);
    if byte == b'e' || byte == b'E' {
        let digits = past_sign(bytes, at + 1);
        let end = past_digits(bytes, digits);
        if digits < end {
            return end;
        }
    }
    at
}

// The end of the fraction and the exponent at `at`, where either may be absent.
fn fraction_end(bytes: &[u8], at: usize) -> usize
    requires { at ≤ length bytes.now }
    ensures same { result ≡ fraction_end bytes.now at }
    ensures to { result ≤ length bytes.now }
{
    if byte_at(bytes, at) != b'.' {
        return exponent_end(bytes, at);
    }
    let end = past_digits(bytes, at + 1);
    if at + 1 < end {
        return exponent_end(bytes, end);
    }
    at
}

// The end of the number whose first digit is at `at`.
pub(crate) fn number_end(bytes: &[u8], at: usize) -> usize
    requires { at < length bytes.now }
    ensures same { result ≡ number_end bytes.now at }
    ensures to { result ≤ length bytes.now }
{
    if bytes[at] == b'0' {
        return fraction_end(bytes, at + 1);
    }
    fraction_end(bytes, past_digits(bytes, at))
}
