//! A level of operators that group from the left.
#[derive(Clone, Copy, Drop)]
pub enum Level {
    // `||`
    Or,
    // `&&`
    And,
    // `+` and `-`
    Sum,
    // `*`, `/` and `%`
    Product,
}
