//! Documents, their changes, the keys by which they are looked up, and the views that look them up.
#![tactic(auto)]

mod change;
mod doc;
mod key;
pub mod laws;
mod lookup;
mod record;
mod scope;
mod touching;
mod view;

pub use change::Change;
pub use doc::{DEEPEST_DOCUMENT, Doc, DocFault, is_body};
pub use key::{Key, Names, Scalar};
pub use lookup::{has, has_all, has_ref};
pub use record::{Record, is_touched};
pub use scope::Scope;
pub use touching::some_touched;
pub use view::View;

#[cfg(test)]
mod tests;
