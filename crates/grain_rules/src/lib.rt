//! What acceptance of Rhai Grain bytecode means, and the tests of a program that take no memory.
//!
//! The definitions of the folder `specs/` are what the verifier's theorem says, and no more: what an operation does and
//! requires, edges and typings, the machine and its kept runs, accepted input, flaws, and the verdict. `laws` are theorems
//! about these definitions alone. A host uses `grain`, which re-exports what is for hosts.
#![tactic(auto)]

mod asks;
mod bounds;
mod candidate;
mod capabilities;
mod code_test;
mod constants;
mod effect;
mod error;
mod frame;
mod front;
mod functions;
mod indices;
pub mod laws;
mod operations;
mod passed;
mod pool_reads;
mod pools;
mod read;
mod unindexed;

pub use asks::{Asks, asked_beside, chain_caps, name_caps};
pub use bounds::{BadIndex, Bound, check_among, check_below};
pub use candidate::Candidate;
pub use capabilities::{allows, missing};
pub use code_test::{Started, check_code, start_code};
pub use constants::{check_constants, constant_caps};
pub use effect::Effect;
pub use error::VerifyError;
pub use frame::check_frame;
pub use functions::check_functions;
pub use pool_reads::{NoPools, SwitchTargets};
pub use pools::Pools;
pub use read::{Read, Targets};
