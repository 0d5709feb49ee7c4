//! What a program needs of the host that runs it: the least capabilities, and how many slots for local variables.
//!
//! The verifier tests neither: it is given the capabilities, and a slot is any number of 16 bits. [`least_caps`] says which
//! capabilities a program has to declare, and [`chunk_slots`] how many slots a host makes room for when it calls a chunk.
#![tactic(auto)]

mod capabilities;
pub mod laws;
mod slots;

pub use capabilities::least_caps;
pub use slots::{ChainSlots, chunk_slots};
