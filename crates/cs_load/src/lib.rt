//! The data file that a run begins with.
#![tactic(auto)]

mod data_file;
mod fault;
mod import;
mod loading;
mod refusal;

pub use cs_docs::Docs;
pub use data_file::load;
pub use fault::{DataCause, LoadFault};
