//! The value of an expression, borrowed or made.
use cs_value::Val;

/// The value of an expression: one that is borrowed from the query, its parameters or a document, a
/// list of borrowed elements, or one that was made. Contracts speak of it by its tree.
#[derive(Drop)]
pub enum Got<'s> {
    Part(&'s Val),
    Parts(Vec<&'s Val>),
    Whole(Val),
}
