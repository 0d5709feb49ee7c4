//! The lexemes of a Rhai source text with their places, and names without repeats.
//!
//! A source text is first split into lexemes by [`split_into_lexemes`].
#![tactic(auto)]

mod lexeme;
mod lexer;
mod literal;
mod names;
mod scan;

pub use lexeme::{Kind, Lexeme, Mark, Operator};
pub use lexer::{Lexemes, split_into_lexemes, split_more};
pub use names::Names;
