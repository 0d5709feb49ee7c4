//! The instruction set of Rhai Grain bytecode, as bytes and as values: reading code, counting and disassembling it, and
//! where its instructions begin.
//!
//! Code is a sequence of instructions of one to seven bytes: a tag and its fields (docs/FORMAT.md).
//! `specs/InstructionTable.antt` is the instruction table that every contract on code speaks of. A host uses
//! `grain_bytecode` or `grain`, which re-export all that is public here except how an operation is laid out and how starts are
//! written down.
#![tactic(auto)]

mod chunk;
mod code;
mod decoder;
mod disassembly;
mod encoding;
mod field;
mod flow;
mod function;
mod instruction;
mod op;
mod op_fields;
mod starts;
pub mod tag;
mod tag_table;
mod tag_widths;
mod text;

pub use chunk::Chunk;
pub use code::{count_instructions, decode, u16_at, u32_at};
pub use disassembly::{Disassembly, disassemble};
pub use encoding::layout;
pub use field::{Field, Fields, Pool};
pub use flow::Flow;
pub use function::Function;
pub use instruction::{Instruction, decode_standing};
pub use op::{Op, Receiver};
pub use op_fields::width_of;
pub use starts::{Growing, Starts};
pub use tag_table::{TagRow, tag_row};
pub use tag_widths::{Head, width};
