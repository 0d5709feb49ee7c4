//! Functions of floating-point numbers.
//!
//! The C library computes angles, logarithms and powers: no clause describes their results.
#![tactic(auto)]

mod convert;
mod function;
mod operate;
mod remainder;

pub use convert::{integer_of, sign_of};
pub use function::Math;
pub use operate::{arithmetic, comparison};
