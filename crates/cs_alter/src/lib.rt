//! Values changed in place, at the locations that paths lead to.
#![tactic(auto)]

mod alteration;
mod give;
mod insert;
mod lookup;
mod perform;
mod write;

pub use alteration::{Alteration, Change, Gift, Insertion, Side};
pub use insert::copy_all;
pub use lookup::look;
pub use write::{alter, remove};
