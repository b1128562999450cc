//! Values that are lent, which are written without being copied.
use cs_value::Val;

/// A value of JSON (RFC 8259, section 3) whose parts are lent, to be written once by
/// [`crate::write_node`]. Contracts speak of it by its tree, as of a [`Val`].
#[derive(Drop)]
pub enum Node<'a> {
    /// A value.
    Value(&'a Val),
    /// A list of values, in order.
    Values(Vec<&'a Val>),
    /// A text.
    Text(&'a str),
    /// A whole number from -2^63 to 2^63-1.
    Number(i64),
}

/// An attribute of an object.
#[derive(Drop)]
pub struct Member<'a> {
    /// Its name.
    pub name: &'a str,
    /// Its value.
    pub node: Node<'a>,
}
