//! Which function a call asks for.

/// A function of values.
#[derive(Clone, Copy, Debug, Drop, PartialEq, Eq)]
pub enum Function {
    /// `count`, of one argument
    Count,
    /// `length`, of one argument
    Length,
    /// `defined`, of one argument
    Defined,
    /// `string`, of one argument
    Text,
    /// `array::unique`, of one argument
    Unique,
    /// `array::compact`, of one argument
    Compact,
    /// `array::join`, of two arguments
    Join,
    /// `string::split`, of two arguments
    Split,
    /// `string::startsWith`, of two arguments
    StartsWith,
    /// `math::sum`, of one argument
    Sum,
    /// `math::min`, of one argument
    Min,
    /// `math::max`, of one argument
    Max,
}
