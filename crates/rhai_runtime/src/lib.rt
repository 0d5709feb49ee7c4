//! A host of `grain_machine` for scripts: calls, assignments and chains of accesses over the values and variables of
//! `rhai_values`, with the functions of `rhai_library` and the operators of `rhai_operators`.
//!
//! What operations do to the stacks is the machine's, and proved there. What they mean for values docs/FORMAT.md leaves to a
//! host: here it is as Rhai's documentation says, as far as docs/LANGUAGE.md lists it. Proved of this host is that each call is safe
//! and ends, that it names only functions of the program, and that a fault of `give` or `take` has the address of the operation. It
//! finds a function or a name if and only if the program has it.
#![tactic(auto)]

mod access;
mod answering;
mod asked;
mod calls;
mod defined;
mod held;
mod host;
mod named;
mod runs;
mod script;
mod top;
mod world;

pub use asked::Asked;
pub use rhai_chains::Fault;
pub use script::Script;
pub use world::{Recorder, World};
