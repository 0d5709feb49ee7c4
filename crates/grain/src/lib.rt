//! The verifier for untrusted Rhai Grain bytecode, and the program object. It re-exports all names of the crates below it
//! that are for hosts, except the laws of `grain_base` and `grain_bytecode`.
//!
//! [`verify`] says whether a program may be run in place, and how many operands each of its chunks needs. The promise is
//! that of *kept* runs: a machine has to step as docs/FORMAT.md says ("Verification"), and at the eight quiet instructions
//! it faults never, or only with at least what was on the stacks when the handler was armed that catches. What the result means is
//! defined in the folder `specs/` of the crate `grain_rules`, over operations where they are (`Layout`):
//! in bytes, as `verify` is given them, or in a list, so that a program built from a list of operations by index is judged
//! by the same words. Capabilities are made and joined through the trait [`Flags`].
//!
//! [`Program`] has what a compiled script has, what it finds by an index or a name, its verdict, and its positions, which go
//! apart from it and come back. A [`Verified`] is one that was accepted, with the depths of its chunks. [`build`] makes one from
//! operations by index.
#![tactic(auto)]

mod builder;
mod explanation;
pub mod laws;
mod lookup;
mod needs;
mod program;
mod sidecar;
mod slots;
mod tighten;
mod verified;

pub use builder::BuildError;
pub use builder::Cut;
pub use builder::Head;
pub use builder::build;
pub use builder::lay;
pub use explanation::Explained;
pub use explanation::explain;
pub use grain_base::Caps;
pub use grain_base::Dynamic;
pub use grain_base::Flags;
pub use grain_base::Float;
pub use grain_base::FnAccess;
pub use grain_base::FnPtr;
pub use grain_base::HostValue;
pub use grain_base::Position;
pub use grain_base::Token;
pub use grain_base::pos;
pub use grain_base::varint;
pub use grain_bytecode::AssembleError;
pub use grain_bytecode::Positions;
pub use grain_bytecode::StripError;
pub use grain_bytecode::TableError;
pub use grain_bytecode::assemble;
pub use grain_bytecode::resolve_switch_targets;
pub use grain_bytecode::site_to_position;
pub use grain_bytecode::sites;
pub use grain_code::Chunk;
pub use grain_code::Disassembly;
pub use grain_code::Field;
pub use grain_code::Fields;
pub use grain_code::Flow;
pub use grain_code::Function;
pub use grain_code::Head as InstructionHead;
pub use grain_code::Instruction;
pub use grain_code::Op;
pub use grain_code::Pool;
pub use grain_code::Receiver;
pub use grain_code::Starts;
pub use grain_code::TagRow;
pub use grain_code::count_instructions;
pub use grain_code::decode;
pub use grain_code::decode_standing;
pub use grain_code::disassemble;
pub use grain_code::tag;
pub use grain_code::tag_row;
pub use grain_code::u16_at;
pub use grain_code::u32_at;
pub use grain_code::width;
pub use grain_explain::ExplainError;
pub use grain_explain::ExplainedChunk;
pub use grain_explain::LinkedBase;
pub use grain_explain::Refusal as ExplainedRefusal;
pub use grain_explain::Row;
pub use grain_explain::TypingError;
pub use grain_explain::check_typing;
pub use grain_explain::explain_chunks;
pub use grain_needs::ChainSlots;
pub use grain_needs::chunk_slots;
pub use grain_needs::least_caps;
pub use grain_pools::AssignOp;
pub use grain_pools::BadTable;
pub use grain_pools::Chain;
pub use grain_pools::ChainPositions;
pub use grain_pools::DisassembleError;
pub use grain_pools::Lookups;
pub use grain_pools::Names;
pub use grain_pools::Root;
pub use grain_pools::Step;
pub use grain_pools::StepFlags;
pub use grain_pools::Strings;
pub use grain_pools::StringsError;
pub use grain_pools::Switch;
pub use grain_pools::SwitchRange;
pub use grain_pools::Tail;
pub use grain_pools::names;
pub use grain_rules::Asks;
pub use grain_rules::BadIndex;
pub use grain_rules::Bound;
pub use grain_rules::Candidate;
pub use grain_rules::Effect;
pub use grain_rules::NoPools;
pub use grain_rules::Pools;
pub use grain_rules::Read;
pub use grain_rules::Targets;
pub use grain_rules::VerifyError;
pub use grain_rules::asked_beside;
pub use grain_rules::check_among;
pub use grain_rules::check_below;
pub use grain_rules::constant_caps;
pub use grain_rules::name_caps;
pub use grain_verify::Meter;
pub use grain_verify::Refusal;
pub use grain_verify::Scratch;
pub use grain_verify::is_quiet;
pub use grain_verify::verify;
pub use grain_verify::verify_located;
pub use grain_verify::verify_metered;
pub use grain_verify::verify_read;
pub use program::Parts;
pub use program::Program;
pub use sidecar::Sidecar;
pub use verified::Rejected;
pub use verified::Verified;
