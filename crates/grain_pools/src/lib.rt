//! What the indices of Rhai Grain instructions lead into: names, chains, switches and op-assignments, with their texts.
//!
//! A host uses `grain_bytecode` or `grain`, which re-export all of it but what the texts of operations are made of.
#![tactic(auto)]

mod assign_op;
mod chain;
mod lookups;
pub mod names;
mod strings;
mod switch;
pub mod text;

pub use assign_op::AssignOp;
pub use chain::{Chain, ChainPositions, Root, Step, StepFlags, Tail};
pub use lookups::Lookups;
pub use strings::{BadTable, Names, Strings, StringsError, start_at, text_in};
pub use switch::{Switch, SwitchRange};
pub use text::DisassembleError;
