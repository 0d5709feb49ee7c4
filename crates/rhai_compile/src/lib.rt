//! A compiler of Rhai: from a source text to a program that is accepted.
//!
//! [`compile`] reads a text by `rhai_syntax`, and writes operations for it by `rhai_emit`, which has [`grain::build`] assemble
//! and verify them. docs/LANGUAGE.md says what is compiled.
#![tactic(auto)]

mod access;
mod blocks;
mod building;
mod calls;
mod coder;
mod linking;
mod loops;
mod parts;
mod placing;
mod prelude;
mod programs;
mod switches;

pub use linking::{LinkError, MAX_MODULES, Module, Modules, compile_with};
pub use programs::{compile, compile_syntax};
pub use rhai_emit::Options;
pub use rhai_errors::{CompileError, Problem, Thing, report};
pub use rhai_syntax::{MAX_FLAWS, flaws};
