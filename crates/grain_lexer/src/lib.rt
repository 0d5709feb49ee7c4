//! The words, numbers and quoted texts of assembly text (docs/ASSEMBLY.md), and what can be wrong with a line.
#![tactic(auto)]

mod cursor;
mod literals;
mod operators;
mod problem;

pub use cursor::{LineCursor, no_number};
pub use literals::{is_text, read_char, read_text, read_text_or_word};
pub use operators::{is_same, read_token};
pub use problem::{LineProblem, LineStop};
