//! The values of operands: scalars as they are, texts, lists and objects lent; and what operators
//! and functions make of them without memory.
#![tactic(auto)]

mod compare;
mod functions;
mod numbers;
mod operand;

pub use operand::Operand;
