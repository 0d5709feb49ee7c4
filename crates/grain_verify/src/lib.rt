//! The verifier of Rhai Grain bytecode: the walk over each chunk, and what its parts promise each other.
//!
//! What its result means is defined in `grain_rules`. A host uses `grain`, which re-exports what hosts need of it.
#![tactic(auto)]

mod asked;
mod by_tag;
mod chunk;
mod edges;
mod lists;
mod meter;
mod refusal;
mod scratch;
mod sinking;
mod state;
mod states;
mod verifier;
mod walk;

pub use meter::Meter;
pub use refusal::Refusal;
pub use scratch::Scratch;
pub use sinking::is_quiet;
pub use verifier::{verify, verify_located, verify_metered, verify_read};
