//! What an expression may be refused for.

/// A fault of an expression: this project's profile. Names are those that the text has, borrowed.
#[derive(Clone, Copy, Debug, Drop, PartialEq, Eq)]
pub enum Fault<'e> {
    /// A form or function that the profile leaves out: `exponent`, `fraction`, `wide-number`,
    /// `constant`, `slice-bounds`, an operator as it is written, or a function's name.
    Unsupported { name: &'e str },
    /// A call of a function that there is not.
    UnknownFunction { name: &'e str },
    /// A call whose function takes another number of arguments, or takes none with `=>`.
    Arity { name: &'e str },
    /// An entry that is an expression alone, of which no key can be read.
    NoKey,
}
