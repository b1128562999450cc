//! Operators on values.
#![tactic(auto)]

mod arithmetic;
mod compare;
mod laws;
mod op;
mod operators;
mod truth;

pub use compare::{equal, partial, total};
pub use laws::{
    equal_is_an_equality, partial_compares_each_kind, texts_compare_by_code_points,
    total_is_a_preorder,
};
pub use op::{Op, Pre};
pub use operators::{between, binary, binary_onto, prefix, within};
pub use truth::{both, either, opposite};

#[cfg(test)]
mod tests;
