//! Plain predicates, the filters that a listener may have: which they are, whether one is true of a
//! document, without memory, and which keys each such document has.
#![tactic(auto)]

mod chosen;
mod conditions;
mod forms;
mod holds;
mod laws;
mod listened;
mod predicate;
mod references;
mod values;

pub use chosen::keys;
pub use holds::test;
pub use laws::{plain_holds_anywhere, plain_is_quiet, true_has_predicate_keys};
pub use predicate::Plain;
