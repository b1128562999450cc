//! How far the longest token at a place reaches.
ghost use Rattle.std.specs.Prelude.{◌≡◌, ◌<◌, ◌≤◌, length};
ghost use Rattle.cs_syntax.specs.Ends.{is_one, is_two, kind_of, param_end, past_word, sign_end, sign_len, token_end};
ghost use Rattle.cs_syntax.specs.Escapes.{is_quote};
ghost use Rattle.cs_syntax.specs.Lex.{is_letter, is_word_byte};

use crate::blank::byte_at;
use crate::number::number_end;
use crate::text::text_end;
use crate::token::Kind;

fn is_letter(byte: u8) -> bool
    ensures { result ≡ is_letter byte }
{
    byte.is_ascii_alphabetic() || byte == b'_'
}

fn is_word_byte(byte: u8) -> bool
    ensures { result ≡ is_word_byte byte }
{
    is_letter(byte) || byte.is_ascii_digit()
}

fn is_quote(byte: u8) -> bool
    ensures { result ≡ is_quote byte }
{
    byte == b'"' || byte == b'\''
}

// The place behind the letters, digits and `_` from `at` on.
fn past_word(bytes: &[u8], at: usize) -> usize
    requires { at ≤ length bytes.now }
    ensures same { result ≡ past_word bytes.now at }
    ensures to { result ≤ length bytes.now }
{
    let mut end = at;
    while end < bytes.len() && is_word_byte(bytes[end]) {
        end += 1;
    }
    end
}

// The place behind the parameter whose `$` stands at `at`.
fn param_end(bytes: &[u8], at: usize) -> Option<usize>
    requires { at < length bytes.now }
    ensures { result ≡ param_end bytes.now at }
{
    if is_letter(byte_at(bytes, at + 1)) {
        return Some(past_word(bytes, at + 2));
    }
    None
}

// Whether the byte alone is a sign.
fn is_one(byte: u8) -> bool
    ensures { result ≡ is_one byte }
{
    matches!(
        byte,
        b'!' | b'%'
            | b'('
            | b')'
            | b'*'
            | b'+'
            | b','
            | b'-'
            | b'.'
            | b'/'
            | b':'
            | b'<'
            | b'>'
            | b'@'
            | b'['
            | b']'
            | b'^'
            | b'{'
            | b'|'
            | b'}'
    )
}

// Whether the two bytes are a sign.
fn is_two(first: u8, second: u8) -> bool
    ensures { result ≡ is_two first second }
{
    match first {
        b'!' | b'<' | b'>' => second == b'=',
        b'=' => second == b'=' || second == b'>',
        b'-' => second == b'>',
        b'&' | b'*' | b'.' | b':' | b'|' => second == first,
        _ => false,
    }
}

// How many bytes the sign has that these begin, 0 where they begin none.
fn sign_len(first: u8, second: u8, third: u8) -> usize
    ensures { result ≡ sign_len first second third }
{
    if first == b'.' && second == b'.' && third == b'.' {
        3
    } else if is_two(first, second) {
        2
    } else if is_one(first) {
        1
    } else {
        0
    }
}

// The place behind the sign at `at`.
fn sign_end(bytes: &[u8], at: usize) -> Option<usize>
    requires { at < length bytes.now }
    ensures { result ≡ sign_end bytes.now at }
{
    let len = sign_len(bytes[at], byte_at(bytes, at + 1), byte_at(bytes, at + 2));
    if len == 0 { None } else { Some(at + len) }
}

// The kind of the token that begins with the byte.
pub(crate) fn kind_of(byte: u8) -> Kind
    ensures { result ≡ kind_of byte }
{
    if is_letter(byte) {
        Kind::Word
    } else if byte.is_ascii_digit() {
        Kind::Number
    } else if is_quote(byte) {
        Kind::Text
    } else if byte == b'$' {
        Kind::Param
    } else {
        Kind::Sign
    }
}

// The place behind the token of the kind at `at`, where the kind is that of its first byte.
pub(crate) fn token_end(bytes: &[u8], at: usize, kind: Kind) -> Option<usize>
    requires { at < length bytes.now }
    ensures { result ≡ token_end bytes.now at kind }
{
    match kind {
        Kind::Word => Some(past_word(bytes, at + 1)),
        Kind::Number => Some(number_end(bytes, at)),
        Kind::Text => text_end(bytes, at),
        Kind::Param => param_end(bytes, at),
        Kind::Sign => sign_end(bytes, at),
    }
}
