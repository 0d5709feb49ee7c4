//! What is wrong with a Rhai source text, at which place of it, and how a person is shown that.
//!
//! All passes of the compiler have these errors. [`report`] shows one with its line.
#![tactic(auto)]

mod error;
mod excerpt;
mod lines;
mod places;

pub use error::{CompileError, Problem, Reserved, Thing};
pub use excerpt::report;
pub use lines::Lines;
