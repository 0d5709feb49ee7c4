//! The tests of what no command calls: the public calls of `grain` and of the crates below it, of `grain_lines`, and of what
//! `grain_parse` and `rhai_compile` have for hosts alone. They are a crate of their own, so that a test that changes has no other
//! crate proved again.
//!
//! Clauses say what most of these calls return. So there is a test for each call that takes memory, one for each text that no
//! clause says, and one for what is deep.
#![tactic(auto)]

#[cfg(test)]
mod caps;
#[cfg(test)]
mod code;
#[cfg(test)]
mod deep;
#[cfg(test)]
mod explained;
#[cfg(test)]
mod explaining;
#[cfg(test)]
mod pos;
#[cfg(test)]
mod positions;
#[cfg(test)]
mod program;
#[cfg(test)]
mod run;
#[cfg(test)]
mod samples;
#[cfg(test)]
mod sources;
#[cfg(test)]
mod strings;
#[cfg(test)]
mod texts;
#[cfg(test)]
mod varint;
