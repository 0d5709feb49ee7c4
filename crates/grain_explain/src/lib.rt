//! Why a chunk of Rhai Grain bytecode is accepted or refused, as rows that anybody can check.
//!
//! A stack typing says of each instruction that a run may reach what is on the stacks: how many operands and iterators,
//! and the bases of the armed handlers. [`check_typing`] says whether rows that somebody hands in are such a typing, without
//! a walk and without memory. What a typing is is defined in `grain_rules`.
#![tactic(auto)]

mod arrival;
mod certificate;
mod claim;
mod edge;
mod error;
mod explain;
mod explanation;
mod frame;
mod lists;
mod needs;
mod refusal;
mod row;
mod scene;
mod stacks;
mod switches;
mod targets;
mod walk;

pub use certificate::check_typing;
pub use error::TypingError;
pub use explain::explain_chunks;
pub use refusal::{ExplainError, ExplainedChunk, Refusal};
pub use row::{LinkedBase, Row};
