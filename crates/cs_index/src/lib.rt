//! An index of the documents of a store: by a key it finds its documents without a walk over all.
#![tactic(auto)]

mod build;
mod commit;
mod delta;
mod entry;
mod index;
mod indexed;
pub mod laws;
mod narrow;
mod pick;
mod put;
mod referrers;
mod spread;
mod view;

pub use commit::{InstallFault, install};
pub use delta::Delta;
pub use entry::Entry;
pub use index::Index;
pub use indexed::Indexed;
