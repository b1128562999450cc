//! The commands of a script's lines, and the moments that they may give.
#![tactic(auto)]

mod blank;
mod command;
mod keys;
mod laws;
mod moments;
mod parts;
#[cfg(test)]
mod tests;

pub use blank::is_blank;
pub use command::{BadCommand, Command};
pub use keys::has_keys;
pub use laws::commands_are_within;
pub use moments::is_moment;
pub use parts::{take_params, take_text};
