//! The targets of a path in a document: what they are, as definitions, and how they are found.
#![tactic(auto)]

mod outer;
mod run;
mod target;

pub use outer::outermost;
pub use run::take_run;
pub use target::{Stands, Target, missing, targets};
