//! Scripts in a host's process: functions of a static library, for programs in C and Rust.
//!
//! An export takes numbers, slices and records of C, and answers whatever their values are. In C a slice is a pointer, which is
//! not NULL, and a length. `hosts/c/engine.c` calls each export from the function of `hosts/c/grain_engine.h` that has its name without
//! `proved_`, and passes a valid pointer for each NULL.
#![tactic(auto)]

mod calls;
mod events;
mod failures;
mod handle;
mod opening;
mod records;
mod shown;
mod status;
mod variables;

pub use grain_flat::{CRefusal, CReport};
pub use grain_flat_file::{CLimits, CReadError, CValue};
pub use handle::CSession;
pub use records::{CBounds, CFailure, CSizes};
pub use rhai_session::CModuleText;
