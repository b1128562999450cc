//! The operators.

/// An operator between two values.
#[derive(Clone, Copy, Debug, Drop, PartialEq, Eq)]
pub enum Op {
    /// `+`
    Add,
    /// `-`
    Sub,
    /// `*`
    Mul,
    /// `%`
    Rem,
    /// `==`
    Eq,
    /// `!=`
    Ne,
    /// `<`
    Lt,
    /// `<=`
    Le,
    /// `>`
    Gt,
    /// `>=`
    Ge,
    /// `&&`
    And,
    /// `||`
    Or,
}

/// An operator before one value.
#[derive(Clone, Copy, Debug, Drop, PartialEq, Eq)]
pub enum Pre {
    /// `-`
    Minus,
    /// `+`
    Plus,
    /// `!`
    Not,
}
