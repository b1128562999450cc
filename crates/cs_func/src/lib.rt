//! Functions of values.
#![tactic(auto)]

mod calls;
mod function;
mod lists;
mod name;
mod numbers;
mod path;
mod reference;
mod run;
mod seen;
mod texts;

pub use calls::call;
pub use function::Function;
pub use name::named;
pub use path::path_matches;
pub use reference::{refers, refers_to_some};
pub use texts::{begins_with, characters};

#[cfg(test)]
mod tests;
