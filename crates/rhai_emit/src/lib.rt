//! Code in the making: operations by index with their places, labels, variables by their slots, and pools without repeats.
//!
//! The compiler writes operations with an [`Emitter`], and makes an accepted program of them.
#![tactic(auto)]

mod calling;
mod chains;
mod chunks;
mod declared;
mod dispatch;
mod emitter;
mod handlers;
mod loops;
mod operators;
mod options;
mod pools;
mod positions;
mod scope;
mod signatures;
mod table;
mod variables;
mod writing;

pub use calling::{CallTarget, callee_of};
pub use chains::before_optional;
pub use dispatch::{Labels, check_arms};
pub use emitter::{Emitter, Signature};
pub use operators::token;
pub use options::Options;
pub use pools::PoolBuilder;
pub use positions::position;
pub use scope::{Found, Local, Loop, Scope};
pub use signatures::{Body, Signatures, global_constants, split_functions};
pub use table::{Leading, Spanning, Table};
pub use writing::{argc_of, height_with, len_of};
