//! The scopes of a query, each with the scope around it.
use cs_value::Val;

/// A scope of GROQ: a value, which `@` and the names of attributes speak of, and the scope around
/// it, which `^` leads to.
#[derive(Clone, Copy)]
pub struct Scope<'s> {
    pub this: &'s Val,
    pub parent: Option<&'s Scope<'s>>,
}
