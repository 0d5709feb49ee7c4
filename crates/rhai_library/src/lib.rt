//! The functions that every script has: of numbers, characters, texts, arrays, blobs, object maps, ranges and function
//! pointers. docs/LANGUAGE.md lists them.
//!
//! A function is found by its name once, when a program is prepared; a call is by [`Callee`] alone.
#![tactic(auto)]

mod arrays;
mod bits;
mod blob_parts;
mod blobs;
mod callee;
mod calls;
mod floats;
mod function;
mod items;
mod maps;
mod numbers;
mod parts;
mod scalars;
mod sorting;
mod spans;
mod steps;
mod text_parts;
mod texts;

pub use callee::{Callee, operate_at};
pub use calls::{call, without_arguments};
pub use function::Function;
pub use items::{assign_item, item_of, item_place};
