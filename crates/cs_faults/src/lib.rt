//! The faults of a query's expression.
#![tactic(auto)]

mod brackets;
mod calls;
mod fault;
mod functions;
mod laws;
mod numbers;
mod walk;

pub use fault::Fault;
pub use laws::{
    a_number_without_fault_fits, each_function_has_its_arity, global_is_the_same_function,
    no_function_is_left_out,
};
pub use walk::first_fault;
