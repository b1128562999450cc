//! Codes: a number for each key by which documents are looked up, the numbers of the keys that a
//! document has, and whether one is among some in order.
#![tactic(auto)]

mod code;
mod coding;
mod kind;
pub mod laws;
mod order;
mod seed;
mod walk;

pub use code::{id_code, key_code, ref_code};
pub use coding::Coding;
pub use kind::KeyKind;
pub use order::{has_code, sort_codes};
pub use seed::Seed;
pub use walk::{codes_of, put_codes};
