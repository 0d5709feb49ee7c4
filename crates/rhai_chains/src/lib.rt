//! What the names and constants of a program mean, and what its chains of accesses do to the values of `rhai_values`.
//!
//! It is apart from `rhai_runtime` since it needs no script: a chain reads and changes parts of a value by the operands of its operation
//! alone. Proved is that each call is safe and ends, that a [`NameTable`] finds only functions of the program, and which position a fault
//! has. What accesses mean is as Rhai's documentation says.
#![tactic(auto)]

mod chains;
mod fault;
mod table;

pub use chains::{Context, Goal, assign_to, ends_early, entry_name, keys_of, placed, read, walk};
pub use fault::{Fault, OpError};
pub use table::NameTable;
