//! A token by what it is and where in its text it stands.
use cs_syntax::Sign;

/// What a token is.
#[derive(Clone, Copy, Debug, Drop, PartialEq, Eq)]
pub enum Form {
    /// A number.
    Number,
    /// A text with its quotes, its escapes not yet read.
    Text,
    /// A parameter, `$` and its name.
    Param,
    /// A word.
    Word,
    /// A sign.
    Sign(Sign),
}

/// A token of a text: its source is the bytes from `from` up to but without `to`.
#[derive(Clone, Copy, Debug, Drop, PartialEq, Eq)]
pub struct Lexeme {
    /// What it is.
    pub form: Form,
    /// The place of its first byte.
    pub from: u32,
    /// The place behind its last byte.
    pub to: u32,
}
