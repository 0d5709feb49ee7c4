//! The sections of a program file or a sidecar file, with the places of their bytes: [`program_dump`] and [`sidecar_dump`] find
//! them, [`Dump::write`] writes them, as a [`TextDump`] or a [`JsonDump`].
#![tactic(auto)]

mod instructions;
mod meaning;
mod model;
mod object;
mod sections;
mod table;

pub use model::{Kind, Layout, Piece, Section};
pub use object::JsonDump;
pub use sections::{Dump, program_dump, sidecar_dump};
pub use table::TextDump;
