//! The texts of disassembly: of each item what it is, and what its indices lead to (docs/FORMAT.md, "Texts").
//!
//! Each file has the texts of one kind of item. A text is written into one string that grows, so that it takes time and
//! memory by its length.

mod assign_op;
mod chain;
mod error;
mod found;
mod switch;

pub use assign_op::write_assign_op_at;
pub use chain::write_chain_at;
pub use error::DisassembleError;
pub use found::{find_constant, find_name, find_token};
pub use switch::write_switch_at;
