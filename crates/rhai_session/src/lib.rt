//! Sessions: states of scripts for hosts that pass texts as bytes and values as rows.
//!
//! A [`Session`] compiles a script or loads a program file, and has one [`State`](rhai_engine::State) of it. What the host is shown
//! (arguments of its functions, values that runs return, faults) it keeps until the host has read it. Nothing here is unsafe: a
//! library for C adds only the handle.
#![tactic(auto)]

mod event;
mod failure;
mod foreign;
mod modules;
mod opening;
mod report;
mod running;
mod session;
mod stops;

pub use event::{Answer, HostEvent, Refused};
pub use failure::{FaultKind, RunFailure};
pub use modules::CModuleText;
pub use session::Session;
pub use stops::{CompileStop, LoadStop};
