//! The top call: the words of a command line, the data file, and the lines of a script.
#![tactic(auto)]

mod generate;
mod status;
mod top;

pub use cs_core::{Core, CoreFault, Replies};
pub use cs_docs::Docs;
pub use cs_load::{DataCause, LoadFault, load};
pub use status::Status;
pub use top::run;
