//! The verifier in a host's process: functions of a static library, for programs in Rust and C.
//!
//! An export takes numbers, slices and records of C, and answers whatever their values are. In C a slice is a pointer, which is
//! not NULL, and a length. `hosts/c/library.c` calls each export for the function of `hosts/c/grain.h` that has its name without
//! `proved_`, and has pointers stand where a caller may pass NULL. What an export isn't said to write stays as it was.
#![tactic(auto)]

mod changed;
mod code;
mod explain;
mod files;
mod handle;
mod held;
mod judge;
mod pools;
mod slots;
mod status;
mod table_flaws;
mod tables;
mod text;
mod tighten;
mod verify;

pub use grain_flat::{
    CBase, CCase, CChain, CChunk, CConstant, CEntry, CExplanation, CField, CInstruction, CPlace,
    CPools, CPoolsFlaw, CProgram, CRefusal, CReport, CRow, CStep, CSwitch,
};
pub use grain_flat_file::{
    CContents, CFunction, CLimits, COpAssignment, CRange, CReadError, CValue,
};
pub use handle::CScratch;
pub use held::CHeldFile;
