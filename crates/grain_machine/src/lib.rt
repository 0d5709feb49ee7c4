//! The machine that runs chunks of accepted programs in place, with the functions that they call, over a host that knows
//! values.
//!
//! The operand stack of each call has its room from the start, and what it takes of operands, iterators and handlers is proved to be there:
//! what [`verify`](grain_verify::verify) accepted is why none of it can lack. What it is to lack is defined in the crate `grain_rules`,
//! `specs/Machine.antt`.
#![tactic(auto)]

mod decoded;
mod frame;
mod frames;
mod host;
mod prepared;
mod quick;
mod run;
mod step;

pub use frames::Parked;
pub use host::{CallError, Host, Reply, Request, dispatch};
pub use prepared::{Prepared, Runnable, prepare};
pub use run::{Ending, Progress, RunLimits, Waiting};
pub use step::Outcome;
