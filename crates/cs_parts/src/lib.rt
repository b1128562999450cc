//! What a query is worth and what finding it looks up, and the parts of an evaluation that evaluate
//! no further expression.
#![tactic(auto)]

mod answer;
mod brackets;
mod calls;
pub mod gathering;
mod item;
mod joins;
mod listed;
mod literals;
mod members;
mod membership;
mod positions;
mod source;
mod take;
mod turns;
mod visits;

pub use answer::Got;
pub use brackets::{Bracket, bracket_of, head_filter, position_of};
pub use calls::{Callee, callee_of, path_arguments};
pub use cs_meaning::{Entrance, Form, Kind, Shape, Way};
pub use gathering::{append, elements, flat_elements, gather, lend_all, settle};
pub use item::{Item, push};
pub use joins::{behind, entrance_of, first_kind, form_of, gives_array, kinds, way_of};
pub use listed::directions;
pub use literals::{at_level, decides, operated, param, signed};
pub use members::{put_all, put_bare};
pub use membership::{among, in_path, references};
pub use positions::{element, sliced};
pub use source::{NoDocs, Source};
pub use take::{attribute, each, field, is_false, is_null, is_object, is_true, reference_of};
pub use turns::{ends, is_all, is_over, items_or_none, prefixed, turn};
pub use visits::{all, deref};
