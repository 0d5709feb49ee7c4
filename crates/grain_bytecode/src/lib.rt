//! Rhai Grain bytecode: the instruction set, as bytes and as values, and the pools that instructions point into.
//!
//! Code is a sequence of instructions of one to seven bytes: a tag and its fields (docs/FORMAT.md). This crate has what reads
//! and writes such code as a whole: the assembler, chain streams, positions, and laws. It re-exports names, pools and
//! instructions from `grain_pools` and `grain_code`, so that a host needs no crate between.
#![tactic(auto)]

mod assemble_error;
mod assembler;
pub mod laws;
mod positions;
pub mod sites;
mod switch_targets;

pub use assemble_error::AssembleError;
pub use assembler::assemble;
pub use grain_code::{
    Chunk, Disassembly, Field, Fields, Flow, Function, Head, Instruction, Op, Pool, Receiver,
    Starts, TagRow, count_instructions, decode, decode_standing, disassemble, tag, tag_row, u16_at,
    u32_at, width,
};
pub use grain_pools::{
    AssignOp, BadTable, Chain, ChainPositions, DisassembleError, Lookups, Names, Root, Step,
    StepFlags, Strings, StringsError, Switch, SwitchRange, Tail, names,
};
pub use positions::{Positions, StripError, TableError, site_to_position};
pub use switch_targets::resolve_switch_targets;
