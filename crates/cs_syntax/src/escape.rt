//! The escapes of a text.
ghost use Rattle.std.specs.Prelude.{◌≡◌, ◌+◌, ◌-◌, ◌<◌, ◌≤◌, IfSome, OnSome, length, slice_index};
ghost use Rattle.cs_syntax.specs.Ends.{braced_at, by_unit_at, escape_at, four_at, hex, unicode_at, unit_at};
ghost use Rattle.std.specs.Char.{InScalarRange};
ghost use Rattle.std.specs.Char.Utf16.{is_high_surrogate, is_low_surrogate};
ghost use Rattle.cs_syntax.specs.Escapes.{letter};

use crate::blank::byte_at;

// The value of a hexadecimal digit.
fn hex_digit(byte: u8) -> Option<u32>
    ensures same { result ≡ hex byte }
    ensures below { IfSome result (λ digit. digit < 16) }
    ensures ascii { OnSome result (byte < 128) }
{
    let digit = match byte {
        b'0'..=b'9' => byte - b'0',
        b'A'..=b'F' => byte - b'A' + 10,
        b'a'..=b'f' => byte - b'a' + 10,
        _ => return None,
    };
    Some(u32::from(digit))
}

// The character that a letter behind `\` stands for.
fn letter(byte: u8) -> Option<char>
    ensures same { result ≡ letter byte }
    ensures ascii { OnSome result (byte < 128) }
{
    match byte {
        b'"' => Some('"'),
        b'\'' => Some('\''),
        b'\\' => Some('\\'),
        b'/' => Some('/'),
        b'b' => Some('\x08'),
        b'f' => Some('\x0c'),
        b'n' => Some('\n'),
        b'r' => Some('\r'),
        b't' => Some('\t'),
        _ => None,
    }
}

// The number of the four hexadecimal digits at `at`.
fn four_digits(bytes: &[u8], at: usize) -> Option<u32>
    requires { at ≤ length bytes.now }
    ensures same { result ≡ four_at bytes.now at }
    ensures below { IfSome result (λ number. number < 65536) }
    ensures inside { OnSome result (at + 4 ≤ length bytes.now) }
    ensures ascii { OnSome result (slice_index bytes.now (at + 3) < 128) }
{
    let first = hex_digit(byte_at(bytes, at))?;
    let second = hex_digit(byte_at(bytes, at + 1))?;
    let third = hex_digit(byte_at(bytes, at + 2))?;
    let fourth = hex_digit(byte_at(bytes, at + 3))?;
    Some(first * 4096 + second * 256 + third * 16 + fourth)
}

// The number of the `\uXXXX` at `at`.
fn unit(bytes: &[u8], at: usize) -> Option<u32>
    requires { at ≤ length bytes.now }
    ensures same { result ≡ unit_at bytes.now at }
    ensures below { IfSome result (λ number. number < 65536) }
    ensures inside { OnSome result (at + 6 ≤ length bytes.now) }
    ensures ascii { OnSome result (slice_index bytes.now (at + 5) < 128) }
{
    if byte_at(bytes, at) == b'\\' && byte_at(bytes, at + 1) == b'u' {
        return four_digits(bytes, at + 2);
    }
    None
}

// Whether the number is the first of a pair of surrogates.
fn is_high(number: u32) -> bool
    ensures { result ≡ is_high_surrogate number }
{
    number >= 0xD800 && number < 0xDC00
}

// Whether the number is the second of a pair of surrogates.
fn is_low(number: u32) -> bool
    ensures { result ≡ is_low_surrogate number }
{
    number >= 0xDC00 && number < 0xE000
}

// The character of this code.
fn scalar(code: u32) -> char
    requires { InScalarRange code }
    ensures { result ≡ code }
{
    char::from_u32(code).unwrap()
}

// The character of the `\uXXXX` of this number that ends at `at`, and the place behind it: behind a
// high surrogate a low one belongs to it.
fn by_unit(bytes: &[u8], at: usize, number: u32) -> Option<(char, usize)>
    requires at_in { at ≤ length bytes.now }
    requires below { number < 65536 }
    requires ascii { slice_index bytes.now (at - 1) < 128 }
    ensures same { result ≡ by_unit_at bytes.now at number }
    ensures from { IfSome result (λ e. at ≤ e.1) }
    ensures to { IfSome result (λ e. e.1 ≤ length bytes.now) }
    ensures ascii { IfSome result (λ e. slice_index bytes.now (e.1 - 1) < 128) }
{
    if is_high(number) {
        let low = unit(bytes, at)?;
        if !is_low(low) {
            return None;
        }
        let code = 0x1_0000 + (number - 0xD800) * 0x400 + (low - 0xDC00);
        return Some((scalar(code), at + 6));
    }
    if is_low(number) {
        return None;
    }
    Some((scalar(number), at))
}

// The character of the `\u{H}` whose `u` stands at `at`, and the place behind the `}`.
fn braced(bytes: &[u8], at: usize) -> Option<(char, usize)>
    requires { at + 2 ≤ length bytes.now }
    ensures same { result ≡ braced_at bytes.now at }
    ensures from { IfSome result (λ e. at < e.1) }
    ensures to { IfSome result (λ e. e.1 ≤ length bytes.now) }
    ensures ascii { IfSome result (λ e. slice_index bytes.now (e.1 - 1) < 128) }
{
    let mut number = 0;
    let mut digits = 0;
    while at + 2 + digits < bytes.len() {
        let byte = bytes[at + 2 + digits];
        if byte == b'}' {
            if digits == 0 {
                return None;
            }
            let character = char::from_u32(number)?;
            return Some((character, at + digits + 3));
        }
        if digits == 6 {
            return None;
        }
        number = number * 16 + hex_digit(byte)?;
        digits += 1;
    }
    None
}

// The character of the escape whose `u` stands at `at`, and the place behind it.
fn unicode_at(bytes: &[u8], at: usize) -> Option<(char, usize)>
    requires { at < length bytes.now }
    ensures same { result ≡ unicode_at bytes.now at }
    ensures from { IfSome result (λ e. at < e.1) }
    ensures to { IfSome result (λ e. e.1 ≤ length bytes.now) }
    ensures ascii { IfSome result (λ e. slice_index bytes.now (e.1 - 1) < 128) }
{
    let next = byte_at(bytes, at + 1);
    if next == b'{' {
        return braced(bytes, at);
    }
    let number = four_digits(bytes, at + 1)?;
    by_unit(bytes, at + 5, number)
}

// The character of the escape whose `\` stands before `at`, and the place behind it.
pub(crate) fn escape_at(bytes: &[u8], at: usize) -> Option<(char, usize)>
    requires { at ≤ length bytes.now }
    ensures same { result ≡ escape_at bytes.now at }
    ensures from { IfSome result (λ e. at < e.1) }
    ensures to { IfSome result (λ e. e.1 ≤ length bytes.now) }
    ensures ascii { IfSome result (λ e. slice_index bytes.now (e.1 - 1) < 128) }
{
    let byte = byte_at(bytes, at);
    if byte == b'u' {
        return unicode_at(bytes, at);
    }
    let character = letter(byte)?;
    Some((character, at + 1))
}
