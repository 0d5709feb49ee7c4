//! Scripts in the process of a host: a [`State`] has a program, the variables of its script, and the runs that are under way.
//!
//! The host resumes a run for a number of turns. The run waits if the script calls a function of the host. The host answers the call,
//! and may run other functions of the script before. So the library calls no code of the host.
#![tactic(auto)]

mod bounds;
mod event;
mod outside;
mod stage;
mod state;

pub use bounds::Bounds;
pub use event::{BeginError, Event, Slice, Status, VariableError};
pub use state::State;
