//! The operators that every script has. docs/LANGUAGE.md lists them.
#![tactic(auto)]

mod floats;
mod frequent;
mod operators;
mod overflows;

pub use frequent::{assign_number, of_numbers, op_assigned};
pub use operators::{negate, operate, operate_on};
pub use overflows::negation_overflow;
